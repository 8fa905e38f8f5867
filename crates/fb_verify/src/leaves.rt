// The `uoffset`s by which a field leads on, passed by reads that are counted in a register.

ghost use Rattle.std.specs.Prelude.{◌≡◌, ◌+◌, ◌*◌, ◌^◌, ◌<◌, ◌≤◌, [], ◌∷◌, ◌++◌, IfOk, IfErr, Some, true};
ghost use Rattle.fb_schema.specs.Served.{IsServed};
ghost use Rattle.fb_rules.specs.{Bounds.AreAllowed, Told.stopped, OffsetRows.lead_to, OffsetRows.first_word, OffsetRows.past_first, OffsetRows.AreOfUnion, OffsetRows.AreTargetsOf};
ghost use Rattle.fb_rules.specs.{OffsetRows.IsLeafLead, OffsetRows.IsReferent, OffsetRows.IsRow, OffsetRows.AreTypesNear, declared.offset_row.Leads.TheVariants.All};
ghost use Rattle.fb_verify.specs.{Stack.Waiting, Stack.IsWalking, Stack.IsStoppedBehind, Turns.IsInRow, Turns.Rests, Turns.RowStands, Turns.RowTurned};

use crate::scratch::Frame;
use crate::stack::{Turn, Walk};
use fb_bytes::Reads;
use fb_rules::checks::Checks;
use fb_rules::fault::Reason;
use fb_rules::limits::short_of;
use fb_rules::offset_row::{Leads, Referent, Row, referent_among};
use fb_rules::plain::{Standing, test_lead};
use fb_rules::site::{LastLink, Refusal, Stop, is_aligned};
use fb_rules::table::Child;
use fb_schema::{Schema, Targets};

/// No targets, for words that all refer to the same.
pub const NO_TARGETS: Targets<'static> = Targets {
    places: &[],
    targets: &[],
};

/// What the `uoffset`s of a row refer to by their types, where these tell it.
#[inline(always)]
pub fn targets_of<'s>(schema: &'s Schema<'_>, leads: Leads) -> Targets<'s>
    requires union { AreOfUnion schema.now leads }
    ensures { AreTargetsOf schema.now result leads }
{
    match leads {
        Leads::All(_) => NO_TARGETS,
        Leads::ByType(union, _) => schema.targets_of(union),
    }
}

/// What the first `uoffset` of a row refers to. Where the types of a union tell that, its type is read, and the
/// target of it is looked up among these.
#[inline(always)]
pub fn first_referent(
    reads: &mut Reads<'_>,
    targets: Targets<'_>,
    schema: &Schema<'_>,
    row: Row,
) -> Referent
    requires targets { AreTargetsOf schema.now targets row.leads }
    requires served { IsServed schema.now }
    requires more { 0 < row.left }
    requires row { IsRow reads.old.bytes schema.now row }
    requires few { reads.old.count < reads.old.base + 2 ^ 60 }
    ensures lead { lead_to result ≡ (first_word reads.old.bytes schema.now row).lead }
    ensures referent { IsReferent schema.now result }
    ensures counted { reads.new ≡ record reads.old { count = reads.old.count + (first_word reads.old.bytes schema.now row).reads } }
{
    match row.leads {
        Leads::All(referent) => referent,
        Leads::ByType(union, types) => {
            let value = reads.u8_at(types);
            referent_among(targets, schema, union, value)
        }
    }
}

/// Whether the words of a row stand in the buffer, so that each can be read. Those of a vector do.
#[inline(always)]
#[tactic(auto, using(fb_rules::proofs::Alignments::four))]
pub fn stands(reads: &Reads<'_>, checks: Checks, row: Row) -> bool
    requires near { row.place < 2 ^ 36 }
    ensures { result ≡ true → RowStands checks reads.now.bytes row }
{
    is_aligned(checks, row.place, 4) && row.place + 4 * u64::from(row.left) <= reads.len()
}

/// Where the walk stops at the first `uoffset` that is left of the top table's field. The top is left past that word,
/// as it is where the word leads to a table.
#[cold]
#[inline(never)]
pub fn stop_at_word(top: &mut Frame, left: Row, at: u64, reason: Reason) -> Stop
    requires more { 0 < left.left }
    requires near { left.place < 2 ^ 36 }
    requires types { AreTypesNear left.leads }
    ensures stop { result ≡ record { refusal = record { at = at; reason = reason }; site = record { object = (top.old.table).object; field = Some top.old.number } } }
    ensures past { top.new ≡ record top.old { row = past_first left } }
{
    top.row = left;
    top.row.advance();
    Stop {
        refusal: Refusal { at, reason },
        site: top.site(),
    }
}

impl Walk<'_, '_> {
    /// Passes the `uoffset`s that are left of the top table's field, which all refer to this, with the strings or
    /// structs that they lead to. Where one fails, the row is left past it. The budget allows whatever they cost. These
    /// are the walk's own checks, and what the words refer to, of which a caller may know constants.
    #[inline(always)]
    fn pass_words_of(
        &self,
        checks: Checks,
        reads: &mut Reads<'_>,
        referent: Referent,
        top: &mut Frame,
    ) -> Result<(), Stop>
        ghost under: { Waiting }
        requires walking { IsWalking self.now reads.old under.start under.frames top.old }
        requires room { AreAllowed (self.now.limits).reads (reads.old.count + 4 * (top.old.row).left) }
        requires few { reads.old.count + 4 * (top.old.row).left ≤ 2 ^ 56 }
        requires leads { (top.old.row).leads ≡ All referent }
        requires leaf { IsLeafLead (lead_to referent) }
        requires checks { checks ≡ self.now.checks }
        requires stands { RowStands checks reads.old.bytes top.old.row }
        ensures rests { IfOk result (λ _. Rests self.now self.now reads.old reads.new under top.old top.new) }
        ensures bytes { reads.new.bytes ≡ reads.old.bytes }
        ensures err { IfErr result (λ s. IsStoppedBehind self.now reads.old under.start (under.frames ++ top.new ∷ []) (stopped s reads.new.count)) }
    {
        let mut row = top.row;
        while row.left > 0 {
            let mut at = row.place;
            let failed = test_lead(reads, checks, &mut at, referent, Standing::Known);
            if let Some(reason) = failed {
                return Err(stop_at_word(top, row, at, reason));
            }
            row.advance_all();
        }
        top.row = row;
        Ok(())
    }

    /// Passes the `uoffset`s that are left of the top table's field, which all refer to this, and of which none leads
    /// to a table, where the budget allows whatever they may cost, four reads each. Texts are a constant in the loop.
    #[inline(always)]
    pub fn pass_words(
        &mut self,
        checks: Checks,
        reads: &mut Reads<'_>,
        waiting: u32,
        referent: Referent,
        top: &mut Frame,
    ) -> Turn
        ghost under: { Waiting }
        requires row { IsInRow self.old reads.old under waiting top.old }
        requires leads { (top.old.row).leads ≡ All referent }
        requires leaf { IsLeafLead (lead_to referent) }
        requires same { checks ≡ self.old.checks }
        ensures { (child : Child) → RowTurned self.old self.new reads.old reads.new under top.old top.new child result }
    {
        let _schema = self.schema;
        if !stands(reads, checks, top.row) {
            return Turn::Slowly;
        }
        if reads.count() + 4 * u64::from(top.row.left) > short_of(self.limits) {
            return Turn::Slowly;
        }
        let mut own = reads.lend();
        let answer = match referent {
            Referent::Text => self.pass_words_of(checks, &mut own, Referent::Text, top),
            _ => self.pass_words_of(checks, &mut own, referent, top),
        };
        reads.settle(own);
        match answer {
            Ok(()) => Turn::Up,
            Err(stop) => self.stop(stop, waiting + 1, LastLink::Behind),
        }
    }
}
