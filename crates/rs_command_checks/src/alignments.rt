//! The checks of an alignment that is to be defined or dropped.

ghost use Rattle.std.specs.Prelude.{◌≡◌, ◌<◌, map, Ok, Err, IfErr, OnOk, true, false};
ghost use Rattle.rs_facts.specs.WellFormed.{ArePiecesOn};
ghost use Rattle.rs_syntax.specs.View.{piece_tree};
ghost use Rattle.rs_machine.specs.State.{has};
ghost use Rattle.rs_machine.specs.Step.{counted, alignment_defined, alignment_dropped, with_alignment, without_alignment};
ghost use Rattle.rs_machine.specs.declared.limits.TheConstants.{CHANGES};
ghost use Rattle.rs_catalog.specs.Definitions.{routes_of, pieces_of};
ghost use Rattle.rs_command_checks.specs.States.{Unseen, state_by};

use crate::checks::Checks;
use rs_checker::check_pieces;
use rs_machine::limits::{ALIGNMENTS, PIECES};
use rs_methods::Name;
use rs_refusal::Refusal;
use rs_syntax::Piece;

impl Checks<'_> {
    /// Whether an alignment may be defined. Checks, in order: its name is taken (24); limits (27); its pieces (20, 30, 31); 27.
    pub fn check_new_alignment(&self, name: &Name, pieces: &[Piece]) -> Result<(), Refusal>
        ensures accepted { (unseen : Unseen) → OnOk result (alignment_defined (state_by self.now unseen) name.now.bytes (map piece_tree pieces.now) ≡ Ok (counted 0 (with_alignment (state_by self.now unseen) name.now.bytes (pieces_of pieces.now)))) }
        ensures refused { (unseen : Unseen) → IfErr result (λ refusal. alignment_defined (state_by self.now unseen) name.now.bytes (map piece_tree pieces.now) ≡ Err refusal) }
        ensures new { OnOk result (has self.now.catalog.now.alignments name.now.bytes ≡ false) }
        ensures lie { OnOk result (ArePiecesOn (routes_of self.now.catalog.now) (pieces_of pieces.now)) }
        ensures may_change { OnOk result (self.now.changes < CHANGES) }
    {
        if self.catalog.alignment(name).is_some() {
            return Err(Refusal::NameTaken);
        }
        if self.catalog.alignments_len() >= ALIGNMENTS {
            return Err(Refusal::Limit);
        }
        if pieces.len() > PIECES {
            return Err(Refusal::Limit);
        }
        check_pieces(self.catalog, pieces)?;
        self.may_change()
    }

    /// Whether an alignment may be dropped. Checks, in order: 21; a view names it (23); 27.
    pub fn check_old_alignment(&self, name: &Name) -> Result<(), Refusal>
        ensures accepted { (unseen : Unseen) → OnOk result (alignment_dropped (state_by self.now unseen) name.now.bytes ≡ Ok (counted 0 (without_alignment (state_by self.now unseen) name.now.bytes))) }
        ensures refused { (unseen : Unseen) → IfErr result (λ refusal. alignment_dropped (state_by self.now unseen) name.now.bytes ≡ Err refusal) }
        ensures there { OnOk result (has self.now.catalog.now.alignments name.now.bytes ≡ true) }
        ensures may_change { OnOk result (self.now.changes < CHANGES) }
    {
        if self.catalog.alignment(name).is_none() {
            return Err(Refusal::NoSuchName);
        }
        if self.catalog.is_alignment_named(name) {
            return Err(Refusal::InUse);
        }
        self.may_change()
    }
}
