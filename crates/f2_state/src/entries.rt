//! What calls of one event leave in the history.
ghost use Rattle.std.specs.Prelude.{◌≡◌, ◌+◌, ◌≤◌, ◌++◌, [], ◌∷◌};
ghost use Rattle.f2_model.specs.Step.{outcome_of};
ghost use Rattle.f2_model.specs.declared.histories.CallKind.TheVariants as kind;
ghost use Rattle.f2_model.specs.declared.histories.Entry.TheVariants as entry;
ghost use Rattle.f2_model.specs.declared.replies.Outcome.TheVariants as outcome;

use f2_model::{BoxedRequest, CallKind, Entry, Log, Outcome, Reply};

/// Appends what a call left that was answered, where that rests on no choice.
pub(crate) fn add_did(history: &mut Log, seat: u8, request: BoxedRequest, reply: &Reply)
    requires { 1 ≤ history.old.spare }
    ensures entries { history.new.entries ≡ history.old.entries ++ entry.Did seat request (outcome_of reply.now) ∷ [] }
    ensures choices { history.new.choices ≡ history.old.choices }
    ensures spare { history.new.spare + 1 ≡ history.old.spare }
{
    let outcome = reply.outcome();
    let did = Entry::Did {
        seat,
        request,
        outcome,
    };
    history.add(did, None);
}

/// Appends what a call left in which a read of the disk failed; `count` is the disk's count of faults since.
pub(crate) fn add_unread(history: &mut Log, seat: u8, request: BoxedRequest, count: u64)
    requires { 2 ≤ history.old.spare }
    ensures entries { history.new.entries ≡ history.old.entries ++ entry.Did seat request outcome.ReadFault ∷ entry.Fault seat kind.Read count ∷ [] }
    ensures choices { history.new.choices ≡ history.old.choices }
    ensures spare { history.new.spare + 2 ≡ history.old.spare }
{
    add_did(history, seat, request, &Reply::ReadFault);
    let kind = CallKind::Read;
    history.add(Entry::Fault { seat, kind, count }, None);
}
