//! What buffers are checked by: a schema, and the plan for the demands with which it was made.

ghost use Rattle.std.specs.Prelude.{◌≡◌, ◌↔◌, IfErr, IfOk, IfSome, IsSome, IsTrue, MatchResult, length, map, option_map, true};
ghost use Rattle.fb_bfbs.specs.{Loads.IsLoaded, Marks.marked as mark_of};
ghost use Rattle.fb_schema.specs.{Live.Live, Live.live_of_view, Rows.is_table};
ghost use Rattle.fb_strict.specs.{Holding.has_bytes, Planned.IsPlan};
ghost use Rattle.fbcheck_calls.specs.Answered.{AreMarksFor, IsInSlot, IsNotOpened, IsNotPlanned, IsNumbered, IsOpened, IsPlanFor};
ghost use Rattle.fbcheck_calls.specs.Asked.{HasLimits, asks_marks, limits_of, plan_asked, plan_for, root_asked};

use crate::options::{DEEPEST, OWN_ROOT, Options, asks_marks, demands_of};
use crate::outcome::{FieldAt, Outcome};
use fb_bfbs::{ByteField, LoadFault, Loaded, Mark, bytes_at, find_unmarked, load, load_marks};
use fb_schema::Schema;
use fb_strict::{Plan, PlanFault};
use fb_verify::Limits;
use std::alloc::Global;
use std::marker::Model;

/// A schema, and the plan for the demands with which it was made, none where it was made without any.
#[derive(Drop)]
pub struct Basis {
    loaded: Loaded<'static>,
    demands: u32,
    plan: Option<Plan>,
}

impl Model for Basis {
    ghost use Rattle.std.specs.Prelude.{IfSome};
    ghost use Rattle.fb_bfbs.specs.Loads.{HasTableForRoot};
    ghost use Rattle.fb_strict.specs.Planned.{IsPlan};
    ghost use Rattle.fbcheck_calls.specs.Bases.{Based};

    ghost Value = { Based };

    ghost view = { λ b. record { loaded = b.loaded; demands = b.demands; plan = b.plan } };

    ghost invariant = { λ b. IfSome b.plan (λ p. IsPlan b.loaded.schema p.demands p) × HasTableForRoot b.loaded };
}

impl Basis {
    /// The schema, with what its file has of its own.
    #[inline(always)]
    pub fn loaded(&self) -> &Loaded<'static>
        ensures { result.now ≡ self.now.loaded }
    {
        &self.loaded
    }

    /// The root table that the options ask of the schema, if there is one. The schema's own isn't tested again.
    #[inline(always)]
    #[tactic(auto, using(crate::proofs::AnswerLemmas::own_root))]
    pub fn root(&self, options: &Options) -> Option<u32>
        ensures root { result ≡ root_asked self.now.loaded options.now }
        ensures table { IfSome result (λ n. IsTrue (is_table self.now.loaded.schema n)) }
    {
        if options.root == OWN_ROOT {
            self.loaded.root
        } else {
            options.root(&self.loaded)
        }
    }

    /// The plan for these demands; none where the schema was made with others.
    pub fn plan_for(&self, demands: u32) -> Option<&Plan>
        ensures plan { option_map (λ p. p.now) result ≡ plan_for self.now demands }
        ensures fits { IfSome result (λ p. IsPlan self.now.loaded.schema (p.now).demands p.now) }
    {
        if demands == self.demands {
            self.plan.as_ref()
        } else {
            None
        }
    }

    /// Whether a buffer can be checked by the demands of the options.
    #[inline(always)]
    pub fn serves(&self, options: &Options) -> bool
        ensures { IsTrue result ↔ IsSome (plan_asked self.now options.now) }
    {
        options.demands == 0 || self.plan_for(options.demands).is_some()
    }
}

/// A field of bytes by its numbers.
fn numbered(found: ByteField<'_>) -> FieldAt
    ensures { IsNumbered found.entry.table (live_of_view found.entry.field) result }
{
    FieldAt {
        object: found.table,
        field: found.field.number,
    }
}

/// The live field of a table in this slot, where one of bytes is.
fn field_in(schema: &Schema<'_>, object: u32, slot: u16) -> FieldAt
    requires { has_bytes schema.now object slot ≡ true }
    ensures { (f : Live) × IsNumbered object f result × IsInSlot schema.now object slot f }
{
    let Some(found) = bytes_at(schema, object, slot) else {
        unreachable!()
    };
    numbered(found)
}

/// The marks of a schema file that was loaded within these limits, where the options ask for them: none where they
/// don't.
///
/// # Errors
///
/// `UnmarkedBytes` where a field of bytes has no mark and the file doesn't show that it would have one. `NoSchema`
/// where memory was refused.
fn marks_asked<'f>(
    alloc: Global,
    file: &'f [u8],
    limits: Limits,
    options: &Options,
    loaded: &Loaded<'_>,
) -> Result<Vec<Mark<'f>>, Outcome>
    requires has { HasLimits options.now 4096 }
    requires limits { limits ≡ limits_of options.now (length file.now) }
    requires loaded { IsLoaded file.now limits loaded.now }
    ensures ok { IfOk result (λ v. AreMarksFor (asks_marks options.now.demands) file.now options.now loaded.now.schema (map mark_of v.items)) }
    ensures no { IfErr result (IsNotOpened file.now options.now) }
{
    if !asks_marks(options.demands) {
        return Ok(Vec::new(alloc));
    }
    let marks = match load_marks(alloc, file, limits) {
        Ok(marks) => marks,
        Err(fault) => return Err(Outcome::NoSchema(fault)),
    };
    match find_unmarked(alloc, &loaded.schema, &marks) {
        Ok(None) => Ok(marks.fields),
        Ok(Some(found)) => Err(Outcome::UnmarkedBytes(numbered(found))),
        Err(_) => Err(Outcome::NoSchema(LoadFault::OutOfMemory)),
    }
}

/// The plan of a schema for these demands, none where there are none, by the marks of its file.
///
/// # Errors
///
/// `NoSuchTable` of a mark that names no table. `NoSchema` where memory was refused.
fn plan_of(
    alloc: Global,
    schema: &Schema<'_>,
    marks: &[Mark<'_>],
    demands: u32,
) -> Result<Option<Plan>, Outcome>
    ensures ok { IfOk result (IsPlanFor schema.now (map mark_of marks.now) demands) }
    ensures no { IfErr result (IsNotPlanned schema.now (map mark_of marks.now)) }
{
    if demands == 0 {
        return Ok(None);
    }
    match Plan::new(alloc, schema, marks, demands_of(demands)) {
        Ok(plan) => Ok(Some(plan)),
        Err(PlanFault::OutOfMemory) => Err(Outcome::NoSchema(LoadFault::OutOfMemory)),
        Err(PlanFault::NoSuchTable(object, slot)) => {
            Err(Outcome::NoSuchTable(field_in(schema, object, slot)))
        }
    }
}

/// Loads a schema file within the limits of the options, and makes the plan for their demands.
///
/// # Errors
///
/// As [`Options::limits`] has it for 4,096 levels; then `NoSchema`; then, with strict checks that don't take bytes for
/// plain, `UnmarkedBytes` and `NoSuchTable`.
pub fn open(alloc: Global, file: &'static [u8], options: &Options) -> Result<Basis, Outcome>
    ensures { MatchResult result (IsOpened file.now options.now) (IsNotOpened file.now options.now) }
{
    let limits = options.limits(DEEPEST, file.len() as u64)?;
    let loaded = match load(alloc, file, limits) {
        Ok(loaded) => loaded,
        Err(fault) => return Err(Outcome::NoSchema(fault)),
    };
    let marks = marks_asked(alloc, file, limits, options, &loaded)?;
    let demands = options.demands;
    match plan_of(alloc, &loaded.schema, &marks, demands) {
        Ok(plan) => Ok(Basis {
            loaded,
            demands,
            plan,
        }),
        Err(why) => Err(why),
    }
}
