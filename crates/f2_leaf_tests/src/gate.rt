use f2_gate::{Busy, Gate, Phase};
use std::test::Fail;

fn shared_keeps_exclusive_out() -> Result<bool, Fail> {
    let mut holds = true;
    let mut gate = Gate::new();
    gate.enter(2)?;
    gate.enter(3)?;
    holds &= gate.close(1) == Err(Busy { by: 2 });
    holds &= gate.phase(1) == Phase::Out;
    holds &= gate.phase(3) == Phase::Inside;
    gate.leave(2);
    gate.leave(3);
    holds &= gate.phase(2) == Phase::Out;
    Ok(holds)
}

fn exclusive_keeps_all_out() -> Result<bool, Fail> {
    let mut holds = true;
    let mut gate = Gate::new();
    gate.close(4)?;
    holds &= gate.phase(4) == Phase::Exclusive;
    holds &= gate.enter(0) == Err(Busy { by: 4 });
    gate.open(4);
    gate.enter(0)?;
    holds &= gate.phase(0) == Phase::Inside;
    holds &= gate.phase(200) == Phase::Out;
    Ok(holds)
}

#[test]
fn all_of_gate(rt: HostRuntime) -> Result<(), Fail> {
    assert!(rt; shared_keeps_exclusive_out()?);
    assert!(rt; exclusive_keeps_all_out()?);
    Ok(())
}
