//! What a schema file, or none, and the settings of the command line ask of a run.

ghost use Rattle.std.specs.Prelude.{ℕ, Option, IfOk, IfErr, IfSome, IsTrue, Ok, ◌≡◌, length, map, option_map, string_bytes};
ghost use Rattle.fb_schema.specs.{Rows.is_table, declared.kinds.Kind.TheVariants.Table};
ghost use Rattle.fb_bfbs.specs.LoadLaws.{ident_bytes};
ghost use Rattle.fbcheck_texts.specs.{Ranges.AreInRange, declared.choices.Settings.Settings};
ghost use Rattle.fbcheck_serve.specs.Asked.{ArePaths, IsPath, PathFails, asked_ident, ident_of, options_of, rejects_of, root_of};
ghost use Rattle.fbcheck_serve.specs.{Checking.Asks, Checking.IsPathless, Checking.IsSchema, Checking.LacksJob, Checking.LacksSchema, Checking.own_of, Heads.head_of};
ghost use Rattle.fb_run.specs.Job.{PathsFit, Serves, job_of};
ghost use Rattle.fb_access.specs.Fitting.{StepsFit};

use crate::head::head_of;
use crate::inputs::label;
use crate::limits::schema_limits;
use crate::names::{Name, STANDARD};
use crate::strict::plan_of;
use fb_access::Path;
use fb_bfbs::{Loaded, load, own_ident, reflection};
use fb_run::{AskedPath, Options, Rejects};
use fb_schema::Schema;
use fb_strict::Plan;
use fb_verify::Ident;
use fbcheck_texts::choices::Settings;
use fbcheck_texts::fault::AskFault;
use fbcheck_texts::framing::{By, Framing, Manner};
use fbcheck_texts::hint::{Unasked, path_hint, root_hint, schema_hint};
use std::alloc::Global;

/// The number of the table `reflection.Schema` in the fixed table (reflection.fbs).
const SCHEMA: u32 = 9;

/// The schema of a schema file with its root table and identifier; without a file the fixed table, with its table
/// `Schema` and the identifier of schema files.
fn schema_of(alloc: Global, schema_bytes: Option<&[u8]>) -> Result<Loaded<'_>, AskFault>
    ensures schema { IfOk result (λ loaded. IsSchema schema_bytes.entry loaded.schema (own_of loaded)) }
    ensures table { IfOk result (λ loaded. IfSome loaded.root (λ n. IsTrue (is_table loaded.schema n))) }
    ensures no { IfErr result (LacksSchema schema_bytes.entry) }
{
    match schema_bytes {
        Some(bytes) => Ok(load(alloc, bytes, schema_limits(bytes.len() as u64))?),
        None => Ok(Loaded {
            schema: reflection(alloc)?,
            root: Some(SCHEMA),
            ident: Some(b"BFBS"),
        }),
    }
}

/// The number of the root table: the listed one of the name that is asked for, or else the schema's own.
fn find_root(schema: &Schema<'_>, name: &Option<String>, own: Option<u32>) -> Option<u32>
    requires own { IfSome own (λ n. IsTrue (is_table schema.now n)) }
    ensures number { result ≡ root_of schema.now (option_map string_bytes name.now) own }
    ensures table { IfSome result (λ n. IsTrue (is_table schema.now n)) }
{
    match name {
        Some(name) => schema.table_named(name.as_bytes()),
        None => own,
    }
}

/// The path that a text names from the root.
fn find_path(
    alloc: Global,
    schema: &Schema<'_>,
    root: u32,
    text: &String,
) -> Result<AskedPath, AskFault>
    requires { IsTrue (is_table schema.now root) }
    ensures path { IfOk result (IsPath schema.now root (string_bytes text.now)) }
    ensures fits { IfOk result (λ path. StepsFit schema.now (Table root) path.steps) }
    ensures fault { IfErr result (PathFails schema.now root (string_bytes text.now)) }
{
    let path = Path::resolve(alloc, schema, root, text.as_bytes())?;
    let text = text.as_bytes().to_vec(alloc)?;
    Ok(AskedPath::new(path, text))
}

/// The paths that texts name from the root, in their order, or why the first that names none does not, with what is
/// told behind it.
fn find_paths(
    alloc: Global,
    schema: &Schema<'_>,
    root: u32,
    texts: &[String],
) -> Result<Vec<AskedPath>, Unasked>
    requires { IsTrue (is_table schema.now root) }
    ensures paths { IfOk result (λ paths. ArePaths schema.now root (map string_bytes texts.now) paths.items) }
    ensures fits { IfOk result (λ paths. PathsFit schema.now root paths.items) }
    ensures count { IfOk result (λ paths. length paths.items ≡ length texts.now) }
    ensures none { IfErr result (λ unasked. IsPathless schema.now root (map string_bytes texts.now) unasked.fault) }
{
    let several = texts.len() > 1;
    let mut paths = Vec::new(alloc);
    for text in texts {
        let path = match find_path(alloc, schema, root, text) {
            Ok(path) => path,
            Err(fault) => {
                let bytes = text.as_bytes();
                let told = if several { Some(bytes) } else { None };
                let hint = path_hint(alloc, schema, root, told, bytes, fault);
                return Err(Unasked::new(fault, hint));
            }
        };
        let Ok(()) = paths.push(path) else {
            return Err(Unasked::plain(AskFault::OutOfMemory));
        };
    }
    Ok(paths)
}

/// The identifier that is asked for.
fn wanted(ident: Option<[u8; 4]>) -> Ident
    ensures { result ≡ ident_of ident }
{
    match ident {
        Some(bytes) => Ident::Want(bytes),
        None => Ident::Any,
    }
}

/// The identifier that the settings ask for: the schema's own where they say so, or else that of the settings.
fn find_ident(settings: &Settings, own: Option<&[u8]>) -> Option<Ident>
    ensures { (root : Option ℕ) → result ≡ asked_ident (record { root = root; ident = ident_bytes own.entry }) settings.now }
{
    if settings.schema_ident {
        own_ident(own)
    } else {
        Some(wanted(settings.ident))
    }
}

/// Whether bad buffers are kept.
fn rejects(settings: &Settings) -> Rejects
    ensures { result ≡ rejects_of settings.now.rejects }
{
    match settings.rejects {
        Some(_) => Rejects::Kept,
        None => Rejects::Dropped,
    }
}

/// By what buffers are checked.
pub fn by(settings: &Settings) -> By {
    match &settings.schema {
        Some(_) => By::Named,
        None => By::Fixed,
    }
}

/// In which manner an input is checked.
pub fn manner(settings: &Settings) -> Manner
    ensures { result.most_bad ≡ settings.now.terms.most_bad }
{
    Manner {
        framing: Framing::of(settings.terms.bare, settings.terms.prefix),
        by: by(settings),
        most_bad: settings.terms.most_bad,
    }
}

/// What the settings ask of each buffer, from this root, with these paths, this identifier, this plan and this label.
fn options(
    settings: &Settings,
    root: u32,
    paths: Vec<AskedPath>,
    ident: Ident,
    plan: Option<Plan>,
    label: Option<Vec<u8>>,
) -> Options
    ensures { result ≡ record (options_of settings.now root paths ident plan) { label = label } }
{
    Options {
        root,
        ident,
        paths,
        terms: settings.terms,
        rejects: rejects(settings),
        label,
        plan,
    }
}

/// Why a file gives no schema, with its name and what it looks like.
#[cold]
#[inline(never)]
fn schemaless(alloc: Global, fault: AskFault, file: Option<&[u8]>, settings: &Settings) -> Unasked
    requires { LacksSchema file fault }
    ensures { LacksJob file.entry settings.now result.fault }
{
    match fault {
        AskFault::Load(cause) => {
            let hint = schema_hint(alloc, &settings.schema, file, cause);
            Unasked::new(fault, hint)
        }
        _ => Unasked::plain(fault),
    }
}

/// What a run is asked: a schema, how buffers are checked by it, and what is written above all else.
#[derive(Drop)]
pub struct Asked<'b> {
    pub schema: Schema<'b>,
    pub options: Options,
    pub head: Vec<u8>,
}

/// What a schema file, or none, and the settings ask, over the files of these names. The root is the table of the
/// settings' name, or else that of the schema file, or `reflection.Schema` without one.
///
/// # Errors
///
/// `Load` where the schema file gives no schema, then `NoRoot` where there is no root table, then `Path` where a path
/// isn't one from there, then `NoIdent` where the schema's own identifier is asked for and has neither no bytes nor
/// four, and then, where strict checks are asked for by a schema file and bytes aren't plain, `UnmarkedBytes` where it
/// has a field of bytes without a mark and doesn't show that it would mark it, and `NoSuchTable` where it marks one as
/// a nested buffer of no table; `OutOfMemory` in place of any where memory was refused. Each with what is told behind
/// it.
pub fn asked_of<'b>(
    alloc: Global,
    schema_bytes: Option<&'b [u8]>,
    settings: &Settings,
    names: &[Name],
) -> Result<Asked<'b>, Unasked>
    requires { AreInRange settings.now }
    ensures job { IfOk result (λ asked. Asks schema_bytes.entry settings.now (Ok (job_of asked.schema asked.options))) }
    ensures serves { IfOk result (λ asked. Serves asked.schema asked.options) }
    ensures head { IfOk result (λ asked. asked.head.items ≡ head_of (job_of asked.schema asked.options) names.now) }
    ensures none { IfErr result (λ unasked. LacksJob schema_bytes.entry settings.now unasked.fault) }
{
    let Loaded {
        schema,
        root,
        ident,
    } = match schema_of(alloc, schema_bytes) {
        Ok(loaded) => loaded,
        Err(fault) => return Err(schemaless(alloc, fault, schema_bytes, settings)),
    };
    let Some(root) = find_root(&schema, &settings.root, root) else {
        let hint = root_hint(alloc, &schema, settings);
        return Err(Unasked::new(AskFault::NoRoot, hint));
    };
    let paths = find_paths(alloc, &schema, root, settings.paths.as_slice())?;
    let Some(ident) = find_ident(settings, ident) else {
        return Err(Unasked::plain(AskFault::NoIdent));
    };
    let plan = plan_of(alloc, &schema, schema_bytes, settings)?;
    let Ok(label) = label(alloc, settings.with_filename, STANDARD.as_bytes()) else {
        return Err(Unasked::plain(AskFault::OutOfMemory));
    };
    let options = options(settings, root, paths, ident, plan, label);
    let head = head_of(alloc, &options, names)?;
    Ok(Asked {
        schema,
        options,
        head,
    })
}
