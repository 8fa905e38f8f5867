ghost use Rattle.std.specs.Prelude.{nat_lt, IfOk, IfErr, IfSome, IsSomeAnd, OnErr, ℕ, ◌≢◌, length, option_map, ◌≡◌, ◌++◌, List, map, string_bytes, Some, codes};
ghost use Rattle.clap.specs.Words.{Text, one_text, found_of};
ghost use Rattle.fbcheck_texts.specs.{Ranges.AreInRange, Given.AreGiven, Given.Say, Given.SayTerms, Given.all_rules, Given.first_broken, Given.rules_of_csv, Given.rules_of_files};
ghost use Rattle.fbcheck_texts.specs.{Given.form_of, Given.has_twice, Given.is_among, Given.is_bfbs, Given.is_sign, Given.mode_of, Given.places_of, Given.prefix_of, Given.steps_in, Given.steps_of};
ghost use Rattle.fbcheck_texts.specs.{Values.IsNumberIn, Values.IsNumberOf, Values.is_given, Values.text_of, Values.texts_of, Refusal.Refuses};
ghost use Rattle.std.specs.List.{list_any};
ghost use Rattle.fbcheck_texts.specs.Matched.{HoldsNumber, HoldsWideNumber, IsReadOf, TakesNumber, TakesWideNumber, values_in};

use crate::choices::{MOST_STEPS, Settings, SettingsFault};
use crate::command::command;
use clap::ArgMatches;
use clap::error::ErrorKind;
use fb_bytes::Endian;
use fb_run::{LineForm, MOST_PATHS, Mode, Places, Prefix, Terms};
use fb_verify::{Checks, Limits};
use std::alloc::{AllocError, Global};

/// What the words ask for, the program's name first.
///
/// # Errors
///
/// `Usage` where `clap` refuses them, help included, and `BadIdent` where it reads them and the identifier isn't four
/// bytes long. Then, where they say what doesn't agree, `PathInFilter` for a filter with a path, then `TwoIdents` for
/// an identifier beside the schema's own, then `TooManyPaths` for more than 16, then `BareDelimited` for a bare buffer
/// behind its length and `BareDelimitedBe` for one behind a big-endian length, then `DelimitedTwice` for both of these
/// lengths, then `PlainUnstrict` for plain bytes without strict checks, then `PathTwice` for the same path
/// twice, then `TooManySteps` for more than 1,024 steps of all paths, then `SchemaAsInput` for a stream in a file `.bfbs`
/// without a schema file, then `NamedTwice` for files beside a file of names, and then of CSV `CsvAsJson`, `CsvInFilter`
/// and `CsvInQuiet` where it is asked for with one of these, and `CsvPathless` without a path. `OutOfMemory` for want of
/// memory.
pub fn settings(alloc: Global, words: &[String]) -> Result<Settings, SettingsFault>
    ensures given { IfOk result (AreGiven (map string_bytes words.now)) }
    ensures ranges { IfOk result AreInRange }
    ensures refused { IfErr result (Refuses (map string_bytes words.now)) }
{
    let matches = matched(alloc, words)?;
    let settings = said(alloc, &matches)?;
    match contradiction(&matches, &settings) {
        Some(fault) => Err(fault),
        None => Ok(settings),
    }
}

/// What the matches say, agreeing or not.
fn said(alloc: Global, matches: &ArgMatches<'_>) -> Result<Settings, SettingsFault>
    requires { (words : List Text) × IsReadOf words matches.now }
    ensures says { IfOk result (Say (values_in matches.now)) }
    ensures refused { (words : List Text) → IsReadOf words matches.now → IfErr result (Refuses words) }
{
    let Ok(ident) = identifier(matches) else {
        return Err(SettingsFault::BadIdent);
    };
    let schema = copied(alloc, matches, "schema")?;
    let root = copied(alloc, matches, "root")?;
    let paths = all_copied(alloc, matches, "path")?;
    let rejects = copied(alloc, matches, "rejects")?;
    let names_file = copied(alloc, matches, "files0-from")?;
    let files = all_copied(alloc, matches, "files")?;
    Ok(Settings {
        schema,
        root,
        ident,
        schema_ident: flag(matches, "schema-ident"),
        paths,
        terms: terms(matches),
        strict: flag(matches, "strict"),
        plain_bytes: flag(matches, "plain-bytes"),
        known_fields: flag(matches, "known-fields"),
        utf8: flag(matches, "utf8"),
        rejects,
        summary: flag(matches, "summary"),
        with_filename: flag(matches, "with-filename"),
        names_file,
        files,
    })
}

/// What they say of a run's terms.
fn terms(matches: &ArgMatches<'_>) -> Terms
    requires { (words : List Text) × IsReadOf words matches.now }
    ensures { SayTerms (values_in matches.now) result }
{
    Terms {
        limits: limits(matches),
        reads_per_byte: number(matches, "reads-per-byte", 0, u32::MAX),
        max_bytes: number(matches, "max-bytes", 8, 2_147_483_647),
        skip: wide_number(matches, "skip", 0),
        most_messages: wide_number(matches, "limit", 1),
        most_bad: wide_number(matches, "max-bad", 1),
        bare: flag(matches, "bare"),
        prefix: prefix(matches),
        checks: Checks {
            alignment: !flag(matches, "no-alignment"),
            inline_size: flag(matches, "inline-size"),
        },
        mode: mode(matches),
        names: places(matches),
        form: form(matches),
    }
}

/// What is told of the buffers.
fn mode(matches: &ArgMatches<'_>) -> Mode
    ensures { result ≡ mode_of (is_given (codes "csv") (values_in matches.now)) (is_given (codes "filter") (values_in matches.now)) (is_given (codes "quiet") (values_in matches.now)) }
{
    if flag(matches, "csv") {
        Mode::Csv
    } else if flag(matches, "filter") {
        Mode::Filter
    } else if flag(matches, "quiet") {
        Mode::BadLines
    } else {
        Mode::Lines
    }
}

/// How the places of faults are told: lines of JSON always tell them in words.
fn places(matches: &ArgMatches<'_>) -> Places
    ensures { result ≡ places_of (is_given (codes "names") (values_in matches.now)) (is_given (codes "json") (values_in matches.now)) }
{
    if flag(matches, "names") || flag(matches, "json") {
        Places::Words
    } else {
        Places::Numbers
    }
}

/// How lines are written.
fn form(matches: &ArgMatches<'_>) -> LineForm
    ensures { result ≡ form_of (is_given (codes "json") (values_in matches.now)) }
{
    if flag(matches, "json") {
        LineForm::Json
    } else {
        LineForm::Plain
    }
}

/// What a message's prefix is.
fn prefix(matches: &ArgMatches<'_>) -> Prefix
    ensures { result ≡ prefix_of (is_given (codes "delimited") (values_in matches.now)) (is_given (codes "delimited-be") (values_in matches.now)) }
{
    if flag(matches, "delimited") {
        Prefix::Apart(Endian::Little)
    } else if flag(matches, "delimited-be") {
        Prefix::Apart(Endian::Big)
    } else {
        Prefix::Part
    }
}

/// What is refused since it doesn't agree with itself, by the paths and files that the settings have.
fn contradiction(matches: &ArgMatches<'_>, settings: &Settings) -> Option<SettingsFault>
    ensures { result ≡ first_broken (all_rules (values_in matches.now) (map string_bytes settings.now.paths.items) (map string_bytes settings.now.files.items)) }
{
    if flag(matches, "filter") && !settings.paths.is_empty() {
        Some(SettingsFault::PathInFilter)
    } else if flag(matches, "schema-ident") && text(matches, "ident").is_some() {
        Some(SettingsFault::TwoIdents)
    } else if settings.paths.len() > MOST_PATHS {
        Some(SettingsFault::TooManyPaths)
    } else if flag(matches, "bare") && flag(matches, "delimited") {
        Some(SettingsFault::BareDelimited)
    } else if flag(matches, "bare") && flag(matches, "delimited-be") {
        Some(SettingsFault::BareDelimitedBe)
    } else if flag(matches, "delimited") && flag(matches, "delimited-be") {
        Some(SettingsFault::DelimitedTwice)
    } else if flag(matches, "plain-bytes") && !flag(matches, "strict") {
        Some(SettingsFault::PlainUnstrict)
    } else if has_twice(settings.paths.as_slice()) {
        Some(SettingsFault::PathTwice)
    } else if are_long(settings.paths.as_slice()) {
        Some(SettingsFault::TooManySteps)
    } else {
        contradiction_of_files(matches, settings)
    }
}

/// What is refused of the files that are named, and of CSV.
fn contradiction_of_files(matches: &ArgMatches<'_>, settings: &Settings) -> Option<SettingsFault>
    ensures { result ≡ first_broken (rules_of_files (values_in matches.now) (map string_bytes settings.now.files.items)
        ++ rules_of_csv (values_in matches.now) (map string_bytes settings.now.paths.items)) }
{
    if text(matches, "schema").is_none()
        && !flag(matches, "bare")
        && has_bfbs(settings.files.as_slice())
    {
        Some(SettingsFault::SchemaAsInput)
    } else if text(matches, "files0-from").is_some() && !settings.files.is_empty() {
        Some(SettingsFault::NamedTwice)
    } else {
        contradiction_of_csv(matches, settings)
    }
}

/// What is refused beside CSV.
fn contradiction_of_csv(matches: &ArgMatches<'_>, settings: &Settings) -> Option<SettingsFault>
    ensures { result ≡ first_broken (rules_of_csv (values_in matches.now) (map string_bytes settings.now.paths.items)) }
{
    if !flag(matches, "csv") {
        None
    } else if flag(matches, "json") {
        Some(SettingsFault::CsvAsJson)
    } else if flag(matches, "filter") {
        Some(SettingsFault::CsvInFilter)
    } else if flag(matches, "quiet") {
        Some(SettingsFault::CsvInQuiet)
    } else if settings.paths.is_empty() {
        Some(SettingsFault::CsvPathless)
    } else {
        None
    }
}

/// Whether one of these texts stands there twice.
fn has_twice(texts: &[String]) -> bool
    ensures { result ≡ has_twice (map string_bytes texts.now) }
{
    let mut rest = texts;
    while let Some((text, others)) = rest.split_first() {
        if is_among(others, text.as_str()) {
            return true;
        }
        rest = others;
    }
    false
}

/// Whether a text stands among these.
fn is_among(texts: &[String], text: &str) -> bool
    ensures { result ≡ is_among (map string_bytes texts.now) text.now }
{
    let mut rest = texts;
    while let Some((first, others)) = rest.split_first() {
        if text == first.as_str() {
            return true;
        }
        rest = others;
    }
    false
}

/// Whether one of these files is named as `flatc` names schema files.
fn has_bfbs(names: &[String]) -> bool
    ensures { result ≡ list_any is_bfbs (map string_bytes names.now) }
{
    let mut rest = names;
    while let Some((name, others)) = rest.split_first() {
        if name.as_bytes().ends_with(b".bfbs") {
            return true;
        }
        rest = others;
    }
    false
}

/// Whether these paths have more steps in all than may be.
fn are_long(paths: &[String]) -> bool
    ensures { result ≡ nat_lt 1024 (steps_of (map string_bytes paths.now)) }
{
    let mut left = MOST_STEPS;
    let mut rest = paths;
    while let Some((path, others)) = rest.split_first() {
        let steps = steps_in(path.as_bytes());
        if steps > left {
            return true;
        }
        left -= steps;
        rest = others;
    }
    false
}

/// How many steps a path has by its text: the name in front is one.
fn steps_in(path: &[u8]) -> usize
    ensures { result ≡ steps_in path.now }
{
    let mut steps = 1;
    for byte in path {
        if is_sign(*byte) {
            steps += 1;
        }
    }
    steps
}

/// Whether a step of a path begins with this byte.
fn is_sign(byte: u8) -> bool
    ensures { result ≡ is_sign byte }
{
    byte == b'.' || byte == b'@' || byte == b'['
}

/// What `clap` reads of the words.
fn matched<'a>(alloc: Global, words: &'a [String]) -> Result<ArgMatches<'a>, SettingsFault>
    ensures refused { IfErr result (Refuses (map string_bytes words.now)) }
    ensures matches { IfOk result (IsReadOf (map string_bytes words.now)) }
{
    let Ok(command) = command(alloc) else {
        return Err(SettingsFault::OutOfMemory);
    };
    let matches = match command.try_get_matches_from(words) {
        Ok(matches) => matches,
        Err(error) => {
            return Err(match error.kind() {
                ErrorKind::OutOfMemory => SettingsFault::OutOfMemory,
                _ => SettingsFault::Usage(error),
            });
        }
    };
    Ok(matches)
}

/// The text of `--ident` isn't four bytes long.
#[derive(Clone, Copy)]
struct NotFour;

/// The identifier that the matches hold.
fn identifier(matches: &ArgMatches<'_>) -> Result<Option<[u8; 4]>, NotFour>
    ensures ok { IfOk result (λ i. i ≡ text_of (codes "ident") (values_in matches.now)) }
    ensures four { IfOk result (λ i. IfSome i (λ bytes. length bytes ≡ 4)) }
    ensures err { OnErr result ((t : List ℕ) × (text_of (codes "ident") (values_in matches.now) ≡ Some t) × (length t ≢ 4)) }
{
    match text(matches, "ident") {
        Some(text) => match <[u8; 4]>::try_from(text.as_bytes()) {
            Ok(bytes) => Ok(Some(bytes)),
            Err(_) => Err(NotFour),
        },
        None => Ok(None),
    }
}

/// The text that the matches hold for an option.
fn text<'a>(matches: &ArgMatches<'a>, id: &str) -> Option<&'a str>
    ensures { option_map (λ s. s.now) result ≡ text_of id.now (values_in matches.now) }
{
    matches.get_str(id)
}

/// A copy of the text that the matches hold for an option.
fn copied(alloc: Global, matches: &ArgMatches<'_>, id: &str) -> Result<Option<String>, AllocError>
    ensures { IfOk result (λ s. option_map string_bytes s ≡ text_of id.now (values_in matches.now)) }
{
    match text(matches, id) {
        Some(text) => Ok(Some(String::from_str(alloc, text)?)),
        None => Ok(None),
    }
}

/// Copies of the texts that the matches hold for an option, in their order.
fn all_copied(alloc: Global, matches: &ArgMatches<'_>, id: &str) -> Result<Vec<String>, AllocError>
    ensures { IfOk result (λ v. map string_bytes v.items ≡ texts_of id.now (values_in matches.now)) }
{
    match matches.get_strs(id) {
        Some(texts) => copies(alloc, texts),
        None => Ok(Vec::new(alloc)),
    }
}

/// Copies of these texts.
fn copies(alloc: Global, texts: &[&str]) -> Result<Vec<String>, AllocError>
    ensures { IfOk result (λ v. map string_bytes v.items ≡ map (λ s. s.now) texts.now) }
{
    let mut copies = Vec::new(alloc);
    for text in texts {
        copies.push(String::from_str(alloc, text)?)?;
    }
    Ok(copies)
}

/// The limits that the matches hold.
fn limits(matches: &ArgMatches<'_>) -> Limits
    requires { (words : List Text) × IsReadOf words matches.now }
    ensures depth { IsNumberOf (codes "max-depth") 0 4096 (values_in matches.now) result.depth }
    ensures tables { IsNumberOf (codes "max-tables") 0 4294967295 (values_in matches.now) result.tables }
    ensures reads { IsSomeAnd result.reads (IsNumberOf (codes "max-reads") 0 18446744073709551615 (values_in matches.now)) }
{
    let depth = number(matches, "max-depth", 0, 4096);
    let tables = number(matches, "max-tables", 0, u32::MAX);
    let Ok(limits) = Limits::new(depth, tables) else {
        unreachable!()
    };
    limits.with_reads(wide_number(matches, "max-reads", 0))
}

/// The number that the matches hold for an option.
fn number(matches: &ArgMatches<'_>, id: &str, least: u32, most: u32) -> u32
    requires read { (words : List Text) × IsReadOf words matches.now }
    requires takes { TakesNumber id.now least most }
    ensures { IsNumberOf id.now least most (values_in matches.now) result }
{
    held_number(matches, id, least, most)
}

fn held_number(matches: &ArgMatches<'_>, id: &str, least: u32, most: u32) -> u32
    requires { HoldsNumber (one_text (found_of matches.now) id.now) least most }
    ensures { IsNumberIn (one_text (found_of matches.now) id.now) least most result }
{
    match matches.get_one::<u32>(id) {
        Some(number) => number,
        None => unreachable!(),
    }
}

/// The same of an option that may be any number of `u64` from the least on.
fn wide_number(matches: &ArgMatches<'_>, id: &str, least: u64) -> u64
    requires read { (words : List Text) × IsReadOf words matches.now }
    requires takes { TakesWideNumber id.now least }
    ensures { IsNumberOf id.now least 18446744073709551615 (values_in matches.now) result }
{
    held_wide_number(matches, id, least)
}

fn held_wide_number(matches: &ArgMatches<'_>, id: &str, least: u64) -> u64
    requires { HoldsWideNumber (one_text (found_of matches.now) id.now) least }
    ensures { IsNumberIn (one_text (found_of matches.now) id.now) least 18446744073709551615 result }
{
    match matches.get_one::<u64>(id) {
        Some(number) => number,
        None => unreachable!(),
    }
}

/// Whether a flag is given.
fn flag(matches: &ArgMatches<'_>, id: &str) -> bool
    ensures { result ≡ is_given id.now (values_in matches.now) }
{
    match text(matches, id) {
        Some(text) => text == "true",
        None => false,
    }
}
