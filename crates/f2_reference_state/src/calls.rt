//! Calls of one event.
ghost use Rattle.std.specs.Prelude.{◌≡◌, ◌==◌, not, [], ◌∷◌, ◌++◌, OnOk, OnErr, IfOk, option_to_list, if◌then◌else◌};
ghost use Rattle.std.specs.List.{filter, list_any};
ghost use Rattle.std.specs.FinMap as map;
ghost use Rattle.std.specs.FinSet as set;
ghost use Rattle.f2_model.specs.State as machine;
ghost use Rattle.f2_model.specs.declared.histories.Entry.TheVariants as entry;
ghost use Rattle.f2_reference_state.specs.Seen.{told};

use crate::pairs::Pairs;
use crate::plain::Plain;
use f2_flights::Inos;
use f2_model::{BoxedRequest, Entry, Outcome, Row, Tree};
use std::alloc::{AllocError, Global};

/// The direct nodes that pages stand in.
fn directs_of(alloc: Global, pages: &[u32]) -> Result<Vec<u32>, AllocError>
    ensures { IfOk result (λ offsets. offsets.items ≡ machine.directs_of pages.now) }
{
    pages
        .iter()
        .filter_map(|page| f2_shape::direct_of(u64::from(*page)))
        .collect(alloc)
}

/// The direct nodes that a file has pages in.
fn directs_of_row(alloc: Global, row: &Row) -> Result<Vec<u32>, AllocError>
    ensures { IfOk result (λ offsets. offsets.items ≡ machine.directs_of (map.keys row.now.pages)) }
{
    let numbers = row.pages.numbers()?;
    directs_of(alloc, numbers.as_slice())
}

/// The numbers that stand among others.
fn among(alloc: Global, numbers: &[u32], others: &[u32]) -> Result<Vec<u32>, AllocError>
    ensures { IfOk result (λ kept. kept.items ≡ filter (λ number. list_any (λ other. other == number) others.now) numbers.now) }
{
    numbers
        .iter()
        .copied()
        .filter(|number| others.contains(number))
        .collect(alloc)
}

/// Whether a number doesn't stand among others.
fn lacks_one(numbers: &[u32], others: &[u32]) -> bool
    ensures { result ≡ list_any (λ number. not (list_any (λ other. other == number) others.now)) numbers.now }
{
    numbers.iter().any(|number| !others.contains(number))
}

/// A set of numbers of a file after some were taken out, and then others and more put in.
fn replaced(
    pairs: &Pairs,
    ino: u32,
    gone: &[u32],
    some: &[u32],
    more: &[u32],
) -> Result<Pairs, AllocError>
    ensures { IfOk result (λ after. after ≡ machine.with_pairs ino (machine.without_pairs ino pairs.now gone.now) (some.now ++ more.now)) }
{
    let mut after = pairs.copy()?;
    after.remove_all(ino, gone);
    after.insert_all(ino, some)?;
    after.insert_all(ino, more)?;
    Ok(after)
}

/// An equal set of inos, with one put into it where that is so.
fn copy_with(inos: &Inos, so: bool, ino: u32) -> Result<Inos, AllocError>
    ensures { IfOk result (λ copy. copy ≡ (if so then set.insert inos.now ino else inos.now)) }
{
    let mut copy = inos.copy()?;
    if so {
        copy.insert(ino)?;
    }
    Ok(copy)
}

/// A call of one event, and what it was answered.
#[derive(Debug, Drop)]
pub struct Call {
    pub seat: u8,
    pub request: BoxedRequest,
    pub outcome: Outcome,
}

impl Call {
    /// Its entry in the history.
    fn entry(self) -> Entry
        ensures { result ≡ entry.Did self.seat self.request self.outcome }
    {
        let Call {
            seat,
            request,
            outcome,
        } = self;
        Entry::Did {
            seat,
            request,
            outcome,
        }
    }
}

/// What is dirty after a call changed the pages of a file, and the files that shrank.
struct Dirt {
    pages: Pairs,
    nodes: Pairs,
    shrunk: Inos,
}

impl Plain {
    /// A call was answered, and changed nothing. Where memory is refused nothing is told.
    pub fn did(&mut self, call: Call) -> Result<(), AllocError>
        ensures ok { OnOk result (self.new ≡ told self.old (entry.Did call.seat call.request call.outcome ∷ []) [] self.old.state) }
        ensures err { OnErr result (self.new ≡ self.old) }
    {
        self.history.room(1)?;
        self.history.add(call.entry(), None);
        Ok(())
    }

    /// A call left this tree; the ino of a new row is told as a choice. Where memory is refused nothing changed.
    pub fn called(&mut self, call: Call, ino: Option<u32>, live: Tree) -> Result<(), AllocError>
        ensures ok { OnOk result (self.new ≡ told self.old (entry.Did call.seat call.request call.outcome ∷ []) (option_to_list ino) (record self.old.state { live = live })) }
        ensures err { OnErr result (self.new ≡ self.old) }
    {
        self.history.room(1)?;
        self.history.add(call.entry(), ino);
        self.live = live;
        Ok(())
    }

    /// What is dirty after a call touched and removed pages of a file, of which the rows before and after it are
    /// given.
    fn dirt_after(
        &self,
        before: &Row,
        after: &Row,
        touched: &[u32],
        removed: &[u32],
    ) -> Result<Dirt, AllocError>
        ensures pages { IfOk result (λ dirt. dirt.pages ≡ (machine.dirtied self.now.state before.now after.now touched.now removed.now).dirty_pages) }
        ensures nodes { IfOk result (λ dirt. dirt.nodes ≡ (machine.dirtied self.now.state before.now after.now touched.now removed.now).dirty_nodes) }
        ensures shrunk { IfOk result (λ dirt. dirt.shrunk ≡ (machine.dirtied self.now.state before.now after.now touched.now removed.now).shrunk) }
    {
        let held = directs_of_row(self.alloc, after)?;
        let lost = directs_of(self.alloc, removed)?;
        let kept = among(self.alloc, lost.as_slice(), held.as_slice())?;
        let reached = directs_of(self.alloc, touched)?;
        let pages = replaced(
            &self.dirty_pages,
            before.ino,
            removed,
            [].as_slice(),
            touched,
        )?;
        let nodes = replaced(
            &self.dirty_nodes,
            before.ino,
            lost.as_slice(),
            kept.as_slice(),
            reached.as_slice(),
        )?;
        let has_shrunk = lacks_one(lost.as_slice(), held.as_slice());
        let shrunk = copy_with(&self.shrunk, has_shrunk, before.ino)?;
        Ok(Dirt {
            pages,
            nodes,
            shrunk,
        })
    }

    /// A call touched and removed pages of a file, of which the rows before and after it are given, and left this
    /// tree. Where memory is refused nothing changed.
    pub fn called_on_pages(
        &mut self,
        call: Call,
        before: &Row,
        after: &Row,
        touched: &[u32],
        removed: &[u32],
        live: Tree,
    ) -> Result<(), AllocError>
        ensures ok { OnOk result (self.new ≡ told self.old (entry.Did call.seat call.request call.outcome ∷ []) [] (record (machine.dirtied self.old.state before.now after.now touched.now removed.now) { live = live })) }
        ensures err { OnErr result (self.new ≡ self.old) }
    {
        let Dirt {
            pages,
            nodes,
            shrunk,
        } = self.dirt_after(before, after, touched, removed)?;
        self.history.room(1)?;
        self.dirty_pages = pages;
        self.dirty_nodes = nodes;
        self.shrunk = shrunk;
        self.history.add(call.entry(), None);
        self.live = live;
        Ok(())
    }

    /// A call removed a file, and left this tree: nothing of the file is dirty. Where memory is refused nothing
    /// changed.
    pub fn called_on_gone(&mut self, call: Call, ino: u32, live: Tree) -> Result<(), AllocError>
        ensures ok { OnOk result (self.new ≡ told self.old (entry.Did call.seat call.request call.outcome ∷ []) [] (record self.old.state { live = live; dirty_pages = machine.without_ino ino self.old.state.dirty_pages; dirty_nodes = machine.without_ino ino self.old.state.dirty_nodes })) }
        ensures err { OnErr result (self.new ≡ self.old) }
    {
        self.history.room(1)?;
        self.dirty_pages.remove_ino(ino);
        self.dirty_nodes.remove_ino(ino);
        self.history.add(call.entry(), None);
        self.live = live;
        Ok(())
    }

    /// A call moved a row, and left this tree. Where memory is refused nothing changed.
    pub fn called_on_moved(&mut self, call: Call, ino: u32, live: Tree) -> Result<(), AllocError>
        ensures ok { OnOk result (self.new ≡ told self.old (entry.Did call.seat call.request call.outcome ∷ []) [] (record self.old.state { live = live; moved = set.insert self.old.state.moved ino })) }
        ensures err { OnErr result (self.new ≡ self.old) }
    {
        self.history.room(1)?;
        self.moved.insert(ino)?;
        self.history.add(call.entry(), None);
        self.live = live;
        Ok(())
    }
}
