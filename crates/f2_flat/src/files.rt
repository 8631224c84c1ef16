//! Files in the root alone.
ghost use Rattle.std.specs.Prelude.{◌≡◌, ◌⊎◌, IfOk, IfErr, OnOk, OnErr, None};
ghost use Rattle.std.specs.FinMap as map;
ghost use Rattle.f2_model.specs.declared.replies.Reply.TheVariants.{Memory};
ghost use Rattle.f2_model.specs.declared.requests.Request.TheVariants.{Create, Write};
ghost use Rattle.f2_laid.specs.Laid.{IsStorable};
ghost use Rattle.f2_flat.specs.Flat.{IsFlat};
ghost use Rattle.f2_flat.specs.Calls.{TakesFlat, IsAdded, IsRefused, IsWritten};
ghost use Rattle.f2_flat.specs.Kept.{HasRootFiles};
ghost use Rattle.f2_flat.specs.Steps.{IsGranted, told_for_file, with_file};

use crate::counts::{Counts, slots_of};
use crate::creates::{node_refusal, place_for, put_file};
use crate::rooms::grant_data;
use crate::rows::is_flat;
use crate::takes::{counts_of, names_of};
use crate::writes::{file_for, put_pieces};
use f2_dir::Dir;
use f2_layout::Geometry;
use f2_model::{Kind, Name, Path, Piece, ROOT, Reply, Tree};
use f2_pieces::fresh;
use std::alloc::{AllocError, Global};
use std::marker::Model;

/// A tree of files in the root alone, with their names and the counts of what they take kept beside it.
#[derive(Drop)]
pub struct Files {
    tree: Tree,
    /// The names of the files, each bound to its ino.
    names: Dir,
    /// What the rows of the tree take.
    counts: Counts,
    alloc: Global,
}

impl Model for Files {
    ghost use Rattle.f2_model.specs.Tree.{Rows};
    ghost use Rattle.f2_model.specs.contracts.trees.Tree as tree_row;
    ghost use Rattle.f2_flat.specs.Kept.{IsKept};

    ghost Value = { Rows };

    ghost coded = { tree_row.the_row.coded };

    ghost view = { λ f. f.tree };

    ghost invariant = { λ f. IsKept f.tree f.names f.counts };
}

impl Files {
    /// Takes a tree that an image of these sizes can have, where it is one of files in the root alone whose inos have no
    /// gap; else `None`.
    pub fn of(alloc: Global, tree: Tree, geometry: &Geometry) -> Result<Option<Files>, AllocError>
        requires { IsStorable geometry.now tree }
        ensures { IfOk result (TakesFlat geometry.now tree) }
    {
        if !is_flat(&tree, geometry) {
            return Ok(None);
        }
        let names = names_of(alloc, &tree)?;
        let counts = counts_of(&tree);
        Ok(Some(Files {
            tree,
            names,
            counts,
            alloc,
        }))
    }

    /// The tree.
    pub fn tree(&self) -> &Tree
        ensures { result.now ≡ self.now }
    {
        &self.tree
    }

    /// Adds an empty file under the next ino, and gives that, or the first refusal. A refusal and want of memory leave
    /// the tree.
    pub fn create(&mut self, geometry: &Geometry, path: &Path) -> Result<u32, Reply>
        requires { IsFlat geometry.now self.old }
        ensures added { IfOk result (IsAdded geometry.now self.old self.new path.now) }
        ensures refused { IfErr result (λ refused. (refused ≡ Memory) ⊎ IsRefused geometry.now self.old (Create path.now) refused) }
        ensures kept { OnErr result (self.new ≡ self.old) }
        ensures flat { IsFlat geometry.now self.new }
    {
        let limit = geometry.cn();
        let name = place_for(&self.tree, &self.names, path)?;
        let rows = self.tree.len() as u32;
        if let Some(refusal) = node_refusal(rows, limit) {
            return Err(refusal);
        }
        let ino = rows + ROOT;
        self.add(ino, name, geometry.cd())?;
        Ok(ino)
    }

    /// Puts pieces into a file one after another, or gives the first refusal. A refusal and want of memory leave the tree.
    pub fn write(&mut self, geometry: &Geometry, path: &Path, pieces: &[Piece]) -> Result<(), Reply>
        requires { IsFlat geometry.now self.old }
        ensures wrote { OnOk result (IsWritten geometry.now self.old self.new path.now pieces.now) }
        ensures refused { IfErr result (λ refused. (refused ≡ Memory) ⊎ IsRefused geometry.now self.old (Write path.now pieces.now) refused) }
        ensures kept { OnErr result (self.new ≡ self.old) }
        ensures flat { IsFlat geometry.now self.new }
    {
        let limit = geometry.cd();
        let row = file_for(&self.tree, &self.names, path, pieces)?;
        let ino = row.ino;
        let fresh = fresh(self.alloc, &row.pages, pieces)?;
        let more = fresh.len() as u64;
        grant_data(self.alloc, &self.tree, self.counts, more, limit)?;
        put_pieces(self.alloc, &mut self.tree, ino, pieces, &fresh)?;
        self.counts.pages += more;
        Ok(())
    }

    /// Adds an empty file in the root, or tells the refusal where its data blocks are more than are granted. Then, and
    /// where memory is refused, the tree stays.
    fn add(&mut self, ino: u32, name: &Name, limit: u32) -> Result<(), Reply>
        requires free { map.get self.old ino ≡ None }
        requires files { HasRootFiles (with_file self.old ino name.now) }
        ensures granted { IsGranted (told_for_file self.old ino name.now limit) result }
        ensures added { OnOk result (self.new ≡ with_file self.old ino name.now) }
        ensures kept { OnErr result (self.new ≡ self.old) }
    {
        let row_name = name.copy(self.alloc)?;
        let dir_name = name.copy(self.alloc)?;
        let counts = Counts {
            slots: self.counts.slots + slots_of(name),
            pages: self.counts.pages,
        };
        put_file(self.alloc, &mut self.tree, ino, row_name, counts, limit)?;
        if let Err(error) = self.names.put(dir_name, ino, Kind::Regular) {
            self.tree.remove(ino);
            return Err(Reply::from(error));
        }
        self.counts = counts;
        Ok(())
    }
}
