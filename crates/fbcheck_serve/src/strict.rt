//! The plan of strict checks, where the settings ask for them and a schema file says enough.

ghost use Rattle.std.specs.Prelude.{IfErr, IfOk, OnOk, false, true, ◌≡◌, length, map};
ghost use Rattle.fb_bfbs.specs.{Loads.IsLoaded, Marks.AreMarks, declared.loading.Loaded.Loaded, Marks.marked};
ghost use Rattle.fb_strict.specs.{Demanded.demanded as holding, Holding.holdings_if, Planned.IsPlan};
ghost use Rattle.fbcheck_texts.specs.declared.fault.AskFault.TheVariants.{OutOfMemory};
ghost use Rattle.fbcheck_serve.specs.{Asked.IsAskedPlan, Asked.Own, Asked.demanded, Asked.is_demanding, ByteFields.LacksPlan, ByteFields.has_lost, Checking.IsPlanBy};
ghost use Rattle.fbcheck_serve.specs.{Checking.IsPlanless, Checking.IsSchema, Checking.LacksPlanBy, Checking.MayAsk, FileMarks.schema_limits};

use crate::byte_fields::{lost, test_marks};
use crate::limits::schema_limits;
use fb_bfbs::{LoadFault, Mark, Marks, load_marks};
use fb_schema::Schema;
use fb_strict::{Demands, Plan, PlanFault};
use fbcheck_texts::choices::Settings;
use fbcheck_texts::fault::AskFault;
use fbcheck_texts::hint::Unasked;
use std::alloc::Global;

/// The marks of a schema file that was loaded. An error comes only where memory is refused.
fn marks_of<'b>(alloc: Global, bytes: &'b [u8]) -> Result<Marks<'b>, Unasked>
    requires { (loaded : Loaded) × IsLoaded bytes.now (schema_limits (length bytes.now)) loaded }
    ensures yes { IfOk result (AreMarks bytes.now (schema_limits (length bytes.now))) }
    ensures no { IfErr result (λ u. u.fault ≡ OutOfMemory) }
{
    match load_marks(alloc, bytes, schema_limits(bytes.len() as u64)) {
        Ok(marks) => Ok(marks),
        Err(fault) => match fault {
            LoadFault::OutOfMemory => Err(Unasked::plain(AskFault::OutOfMemory)),
            _ => unreachable!(),
        },
    }
}

/// What the settings demand of buffers beside the rules of the format.
fn demanded(settings: &Settings) -> Demands
    ensures { result ≡ demanded settings.now }
{
    Demands {
        unions: settings.strict,
        nested: settings.strict && !settings.plain_bytes,
        known_fields: settings.known_fields,
        utf8: settings.utf8,
    }
}

/// Whether they demand anything.
fn is_demanding(settings: &Settings) -> bool
    ensures { result ≡ is_demanding settings.now }
{
    settings.strict || settings.known_fields || settings.utf8
}

/// The plan of a schema for these demands, by these marks.
fn planned(
    alloc: Global,
    schema: &Schema<'_>,
    marks: &[Mark<'_>],
    demands: Demands,
) -> Result<Plan, Unasked>
    ensures plan { IfOk result (IsPlan schema.now (holding demands (holdings_if demands schema.now (map marked marks.now)))) }
    ensures found { OnOk result (demands.nested ≡ true → has_lost schema.now (map marked marks.now) ≡ false) }
    ensures no { IfErr result (λ u. LacksPlan schema.now (map marked marks.now) u.fault) }
{
    match Plan::new(alloc, schema, marks, demands) {
        Ok(plan) => Ok(plan),
        Err(PlanFault::OutOfMemory) => Err(Unasked::plain(AskFault::OutOfMemory)),
        Err(PlanFault::NoSuchTable(table, slot)) => Err(lost(alloc, schema, table, slot)),
    }
}

/// The plan of a schema for these demands, of nested buffers too, by the marks of its file.
fn planned_by(
    alloc: Global,
    schema: &Schema<'_>,
    bytes: &[u8],
    settings: &Settings,
) -> Result<Plan, Unasked>
    requires loaded { (loaded : Loaded) × IsLoaded bytes.now (schema_limits (length bytes.now)) loaded }
    requires nested { (demanded settings.now).nested ≡ true }
    ensures plan { IfOk result (IsPlanBy bytes.now schema.now settings.now) }
    ensures no { IfErr result (λ u. LacksPlanBy bytes.now schema.now u.fault) }
{
    let marks = marks_of(alloc, bytes)?;
    test_marks(alloc, schema, &marks)?;
    planned(alloc, schema, marks.fields.as_slice(), demanded(settings))
}

/// The plan of a schema for what the settings demand, and none where that is nothing. Where that is of nested buffers,
/// the marks of its file say what fields of bytes hold.
///
/// # Errors
///
/// Where they ask for strict checks by a schema file, and not for plain bytes: `UnmarkedBytes` where it has a field of
/// bytes without a mark and doesn't show that it would mark it, and then `NoSuchTable` where it marks one as a nested
/// buffer of no table. `OutOfMemory` where memory was refused.
pub fn plan_of(
    alloc: Global,
    schema: &Schema<'_>,
    file: Option<&[u8]>,
    settings: &Settings,
) -> Result<Option<Plan>, Unasked>
    requires { (own : Own) × IsSchema file schema.now own }
    ensures plan { IfOk result (IsAskedPlan file.entry schema.now settings.now) }
    ensures may { OnOk result (MayAsk file.entry schema.now settings.now) }
    ensures no { IfErr result (λ u. IsPlanless file.entry schema.now settings.now u.fault) }
{
    if !is_demanding(settings) {
        return Ok(None);
    }
    let demands = demanded(settings);
    let plan = match file {
        Some(bytes) if demands.nested => planned_by(alloc, schema, bytes, settings)?,
        _ => planned(alloc, schema, &[], demands)?,
    };
    Ok(Some(plan))
}
