// Fields that stand there and lead on by the words of a vector or by that of a union: these are put into a row, or
// passed at once.

ghost use Rattle.std.specs.Prelude.{◌≡◌, ◌+◌, ◌<◌, IfSome, IsTrue, None, nat_lt, true, false};
ghost use Rattle.fb_schema.specs.{Live.live_of_view, declared.kinds.Kind.TheVariants.Union};
ghost use Rattle.fb_rules.specs.{Cost.present_reads, Cost.reads_at, Fields.entries_of, Fields.entries_at, Places.has_slot, OffsetRows.MayPut, OffsetRows.LeavesRow};
ghost use Rattle.fb_rules.specs.{Order.failure_at, Order.present_failure, Plain.IsTested, Plain.place_from};
ghost use Rattle.fb_verify.specs.{Stack.Waiting, Turns.IsAtFarField, Turns.IsAtOpenField, Turns.IsFar, Turns.WordsPut, Turns.FieldTurned};

use crate::leaves::NO_TARGETS;
use crate::scratch::Frame;
use crate::stack::{Turn, Walk};
use fb_bytes::Reads;
use fb_rules::checks::{Checks, PUBLISHED, are_published};
use fb_rules::fault::Reason;
use fb_rules::leads::{put_union, put_unions, put_word, put_words};
use fb_rules::limits::short_of;
use fb_rules::offset_row::{NO_ROW, Referent, Row};
use fb_rules::plain::{Standing, fails, test_inline_field, test_vector_field};
use fb_rules::table::{Child, Table};
use fb_schema::{FieldView, Kind};

impl Walk<'_, '_> {
    /// Tests a present field by itself that leads on by the words of a vector or by that of a union, and puts these, if
    /// there are any. Where a test fails, the position is moved to where.
    #[inline(always)]
    fn put_row_by(
        &self,
        checks: Checks,
        reads: &mut Reads<'_>,
        table: Table,
        field: &FieldView<'_>,
        at: &mut u64,
        row: &mut Row,
    ) -> Option<Reason>
        requires may { MayPut self.now.checks reads.old self.now.schema.now table (live_of_view field.now) (field.now).kind at.old row.old }
        requires far { IsFar (field.now).kind }
        requires present { IsTrue (has_slot reads.old.bytes table.at (field.now).slot) }
        requires same { checks ≡ self.now.checks }
        ensures tested { IsTested reads.old reads.new at.new (present_failure self.now.checks reads.old.bytes self.now.schema.now table.at (live_of_view field.now) at.old (field.now).kind)
            (present_reads reads.old.bytes table.at (field.now).slot (field.now).kind) result }
        ensures leads { result ≡ None → LeavesRow reads.old.bytes self.now.schema.now
            (entries_of reads.old.bytes self.now.schema.now table.at (live_of_view field.now) at.old (field.now).kind) row.old row.new (nat_lt 0 row.new.left) }
    {
        match field.kind {
            Kind::Union(union) => {
                put_union(
                    reads,
                    checks,
                    self.schema,
                    table,
                    *at,
                    field.slot,
                    union,
                    row,
                )
            }
            Kind::Unions(union) => put_unions(reads, checks, table, at, field.slot, union, row),
            Kind::Tables(object) => {
                put_words(reads, checks, table, at, Referent::Table(object), row)
            }
            _ => put_words(reads, checks, table, at, Referent::Text, row),
        }
    }

    /// The same by the walk's checks, whatever these are.
    #[cold]
    #[inline(never)]
    fn put_row(
        &self,
        reads: &mut Reads<'_>,
        table: Table,
        field: &FieldView<'_>,
        at: &mut u64,
        row: &mut Row,
    ) -> Option<Reason>
        requires may { MayPut self.now.checks reads.old self.now.schema.now table (live_of_view field.now) (field.now).kind at.old row.old }
        requires far { IsFar (field.now).kind }
        requires present { IsTrue (has_slot reads.old.bytes table.at (field.now).slot) }
        ensures tested { IsTested reads.old reads.new at.new (present_failure self.now.checks reads.old.bytes self.now.schema.now table.at (live_of_view field.now) at.old (field.now).kind)
            (present_reads reads.old.bytes table.at (field.now).slot (field.now).kind) result }
        ensures leads { result ≡ None → LeavesRow reads.old.bytes self.now.schema.now
            (entries_of reads.old.bytes self.now.schema.now table.at (live_of_view field.now) at.old (field.now).kind) row.old row.new (nat_lt 0 row.new.left) }
    {
        self.put_row_by(self.checks, reads, table, field, at, row)
    }

    /// Tests a present field by itself, and puts the words by which it leads on, if there are any. Where a test fails,
    /// the position is moved to where.
    #[tactic(auto, using(fb_rules::proofs::Words::word_left))]
    fn put_present(
        &self,
        reads: &mut Reads<'_>,
        table: Table,
        field: &FieldView<'_>,
        at: &mut u64,
        row: &mut Row,
    ) -> Option<Reason>
        requires may { MayPut self.now.checks reads.old self.now.schema.now table (live_of_view field.now) (field.now).kind at.old row.old }
        requires present { IsTrue (has_slot reads.old.bytes table.at (field.now).slot) }
        ensures tested { IsTested reads.old reads.new at.new (present_failure self.now.checks reads.old.bytes self.now.schema.now table.at (live_of_view field.now) at.old (field.now).kind)
            (present_reads reads.old.bytes table.at (field.now).slot (field.now).kind) result }
        ensures leads { result ≡ None → LeavesRow reads.old.bytes self.now.schema.now
            (entries_of reads.old.bytes self.now.schema.now table.at (live_of_view field.now) at.old (field.now).kind) row.old row.new (nat_lt 0 row.new.left) }
    {
        let checks = self.checks;
        let size = field.size;
        let align = field.align;
        match field.kind {
            Kind::Scalar(_) | Kind::Struct(_) => {
                test_inline_field(reads, checks, table, *at, size, align)
            }
            Kind::Scalars(_) | Kind::Structs(_) => {
                let mut many = 0;
                test_vector_field(reads, checks, table, at, size, align, &mut many)
            }
            Kind::Text => put_word(reads, checks, table, *at, Referent::Text, row),
            Kind::Table(object) => {
                put_word(reads, checks, table, *at, Referent::Table(object), row)
            }
            _ => self.put_row(reads, table, field, at, row),
        }
    }

    /// The same of a field that stands at this position or is absent.
    pub fn put_field(
        &self,
        reads: &mut Reads<'_>,
        table: Table,
        field: &FieldView<'_>,
        at: &mut u64,
        row: &mut Row,
    ) -> Option<Reason>
        requires may { MayPut self.now.checks reads.old self.now.schema.now table (live_of_view field.now) (field.now).kind at.old row.old }
        requires present { IfSome (place_from table.at at.old) (λ _. IsTrue (has_slot reads.old.bytes table.at (field.now).slot)) }
        ensures tested { IsTested reads.old reads.new at.new (failure_at self.now.checks reads.old.bytes self.now.schema.now table.at (live_of_view field.now) (place_from table.at at.old))
            (reads_at reads.old.bytes table.at (live_of_view field.now) (place_from table.at at.old)) result }
        ensures leads { result ≡ None → LeavesRow reads.old.bytes self.now.schema.now
            (entries_at reads.old.bytes self.now.schema.now table.at (live_of_view field.now) (place_from table.at at.old)) row.old row.new (nat_lt 0 row.new.left) }
    {
        if *at == table.at {
            if field.required {
                return fails(Reason::MissingRequired);
            }
            return None;
        }
        self.put_present(reads, table, field, at, row)
    }
}

impl<'s, 'n> Walk<'s, 'n> {
    /// Goes into the top's next field, which stands there and leads on by the words of a vector or by that of a union:
    /// up to the first of these words, and answers `Down`; or past the field where there is none, and answers `Up`.
    #[inline(always)]
    fn put_far(
        &mut self,
        checks: Checks,
        reads: &mut Reads<'_>,
        waiting: u32,
        at: u64,
        field: &FieldView<'_>,
        top: &mut Frame,
    ) -> Turn
        ghost under: { Waiting }
        requires field { IsAtOpenField self.old reads.old under waiting top.old at (live_of_view field.now) }
        requires far { IsFar (field.now).kind }
        requires same { checks ≡ self.old.checks }
        ensures { WordsPut self.old self.new reads.old reads.new under waiting top.old top.new result }
    {
        let _schema = self.schema;
        top.next += 1;
        let mut place = at;
        let failed = self.put_row_by(checks, reads, top.table, field, &mut place, &mut top.row);
        if let Some(reason) = failed {
            return self.stop_in_field(top.table.object, top.next - 1, place, reason, waiting);
        }
        if top.row.left == 0 {
            return Turn::Up;
        }
        top.number = field.number;
        Turn::Down
    }

    /// Goes into that field, whatever the checks are, or where a limit may be met in a union.
    #[cold]
    #[inline(never)]
    #[tactic(auto, using(crate::proofs::IntoField::far_turned))]
    fn go_far_by_checks(
        &mut self,
        reads: &mut Reads<'_>,
        waiting: u32,
        at: u64,
        field: &FieldView<'_>,
        top: &mut Frame,
        child: &mut Child,
    ) -> Turn
        ghost under: { Waiting }
        requires field { IsAtOpenField self.old reads.old under waiting top.old at (live_of_view field.now) }
        requires far { IsFar (field.now).kind }
        ensures { FieldTurned self.old self.new reads.old reads.new under top.old top.new child.new result }
    {
        match self.put_far(self.checks, reads, waiting, at, field, top) {
            Turn::Down => self.pass_row(reads, waiting, top, child),
            turn => turn,
        }
    }

    /// Goes into the top's next field, which stands there and is a union, by the published checks: with what it refers
    /// to in registers, where no limit may be met.
    #[inline(never)]
    fn go_to_union(
        &mut self,
        reads: &mut Reads<'_>,
        waiting: u32,
        at: u64,
        field: &FieldView<'_>,
        union: u32,
        top: &mut Frame,
        child: &mut Child,
    ) -> Turn
        ghost under: { Waiting }
        requires field { IsAtOpenField self.old reads.old under waiting top.old at (live_of_view field.now) }
        requires union { (field.now).kind ≡ Union union }
        requires same { record { alignment = true; inline_size = false } ≡ self.old.checks }
        ensures { FieldTurned self.old self.new reads.old reads.new under top.old top.new child.new result }
    {
        let schema = self.schema;
        if !self.may_open(reads, waiting + 1, 13, short_of(self.limits)) {
            return self.go_far_by_checks(reads, waiting, at, field, top, child);
        }
        let table = top.table;
        let mut row = NO_ROW;
        let failed = put_union(
            reads, PUBLISHED, schema, table, at, field.slot, union, &mut row,
        );
        if let Some(reason) = failed {
            return self.stop_in_field(table.object, top.next, at, reason, waiting);
        }
        top.next += 1;
        if row.left == 0 {
            return Turn::Up;
        }
        top.number = field.number;
        let turn = self.pass_member(
            PUBLISHED,
            reads,
            waiting,
            self.brim(),
            Standing::Unknown,
            NO_TARGETS,
            &mut row,
            top,
            child,
        );
        if let Turn::Up = turn {
            top.row = row;
        }
        turn
    }

    /// Goes into the top's next field, which stands there and leads on by the words of a vector or by that of a union:
    /// quickly where the checks are the published ones, which are constants then.
    #[inline(never)]
    #[tactic(auto, using(crate::proofs::IntoField::far_turned))]
    pub fn go_far(
        &mut self,
        reads: &mut Reads<'_>,
        waiting: u32,
        at: u64,
        top: &mut Frame,
        child: &mut Child,
    ) -> Turn
        ghost under: { Waiting }
        requires { IsAtFarField self.old reads.old under waiting top.old at }
        ensures { FieldTurned self.old self.new reads.old reads.new under top.old top.new child.new result }
    {
        let field = &self.schema.fields_of(top.table.object)[top.next as usize];
        if !are_published(self.checks) {
            return self.go_far_by_checks(reads, waiting, at, field, top, child);
        }
        if let Kind::Union(union) = field.kind {
            return self.go_to_union(reads, waiting, at, field, union, top, child);
        }
        match self.put_far(PUBLISHED, reads, waiting, at, field, top) {
            Turn::Down => self.pass_row_by(PUBLISHED, reads, waiting, top, child),
            turn => turn,
        }
    }
}
