//! What calls, checkpoints and faults of the disk leave in the history.
ghost use Rattle.std.specs.Prelude.{◌≡◌, ◌≢◌, ◌+◌, ◌<◌, ◌≤◌, ◌++◌, [], ◌∷◌, option_to_list};
ghost use Rattle.f2_model.specs.Step.{outcome_of};
ghost use Rattle.f2_model.specs.declared.histories.Entry.TheVariants as entry;
ghost use Rattle.f2_model.specs.declared.replies.Plan.TheVariants as plan;
ghost use Rattle.f2_model.specs.declared.events.MountRefusal.TheVariants.{BadImage, NoMemory};

use f2_model::{BoxedRequest, CallKind, Entry, Format, Log, MountRefusal, NO_SEAT, Plan, Reply};

/// The format of the images that a core makes.
const FORMAT: Format = Format::Two;

/// Appends what a call left that was over at once, with this reply.
pub(crate) fn add_did(
    history: &mut Log,
    seat: u8,
    request: BoxedRequest,
    reply: &Reply,
    choice: Option<u32>,
)
    requires { 1 ≤ history.old.spare }
    ensures entries { history.new.entries ≡ history.old.entries ++ entry.Did seat request (outcome_of reply.now) ∷ [] }
    ensures choices { history.new.choices ≡ history.old.choices ++ option_to_list choice }
    ensures spare { history.new.spare + 1 ≡ history.old.spare }
{
    let entry = Entry::Did {
        seat,
        request,
        outcome: reply.outcome(),
    };
    history.add(entry, choice);
}

/// Appends what a call left that made its whole checkpoint: its own entry, then that the checkpoint began, wrote its
/// tail and was done.
pub(crate) fn add_checkpoint(history: &mut Log, first: Entry, choice: Option<u32>, seat: u8)
    requires { 4 ≤ history.old.spare }
    ensures entries { history.new.entries ≡ history.old.entries ++ first ∷ entry.CpBegin seat plan.Sync ∷ entry.CpTail seat ∷ entry.CpDone seat ∷ [] }
    ensures choices { history.new.choices ≡ history.old.choices ++ (option_to_list choice ++ 2 ∷ []) }
    ensures spare { history.new.spare + 4 ≡ history.old.spare }
{
    history.add(first, choice);
    let plan = Plan::Sync;
    history.add(Entry::CpBegin { seat, plan }, Some(FORMAT.number()));
    history.add(Entry::CpTail { seat }, None);
    history.add(Entry::CpDone { seat }, None);
}

/// Appends what a call left whose checkpoint met a fault: its own entry, then that the checkpoint began, and the fault.
pub(crate) fn add_fault(history: &mut Log, first: Entry, choice: Option<u32>, seat: u8, count: u64)
    requires { 3 ≤ history.old.spare }
    ensures { history.new.spare + 3 ≡ history.old.spare }
{
    history.add(first, choice);
    let plan = Plan::Sync;
    history.add(Entry::CpBegin { seat, plan }, Some(FORMAT.number()));
    let kind = CallKind::Write;
    history.add(Entry::Fault { seat, kind, count }, None);
}

/// Appends the fault of the disk that kept a mount from finding a tree, where one did.
pub(crate) fn add_unfound(history: &mut Log, refused: MountRefusal, count: u64)
    requires { 1 ≤ history.old.spare }
    ensures bad { refused ≡ BadImage → history.new ≡ history.old }
    ensures memory { refused ≡ NoMemory → history.new ≡ history.old }
{
    let kind = match refused {
        MountRefusal::ReadFailed => CallKind::Read,
        MountRefusal::WriteFailed => CallKind::Flush,
        MountRefusal::BadImage | MountRefusal::NoMemory => return,
    };
    let seat = NO_SEAT;
    history.add(Entry::Fault { seat, kind, count }, None);
}
