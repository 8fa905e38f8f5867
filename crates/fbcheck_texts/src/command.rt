ghost use Rattle.std.specs.Prelude.{IfOk, ◌≡◌, false};
ghost use Rattle.clap.specs.Words.{app_of, rule_of};
ghost use Rattle.fbcheck_texts.specs.{CommandLine.named, CommandLine.program, OptionTable.choice_rule, OptionTable.taking_rule};

use clap::builder::ValueParser;
use clap::{Arg, ArgAction, Command};
use std::alloc::{AllocError, Global};

/// The version of the program and of the library for C.
const VERSION: &str = "1";

/// The same, the commit, which `scripts/build` writes over the question marks, and the toolchain's logic, in which all of
/// it is proved.
const LONG_VERSION: &str =
    "1\ncommit ????????????????????????????????????????\nproved in Rattle, logic dac8208d650f15bf";

/// What an option takes.
#[derive(Clone, Copy)]
enum Takes<'a> {
    /// A text, which help calls by this name.
    Text(&'a str),
    /// A text each time that the option is given.
    Texts(&'a str),
    /// A number that this parser passes, with a default.
    Number(ValueParser<'a>, &'a str),
    /// A number from 1 on, at which something ends; without it nothing does.
    Most,
    /// Nothing: the option is given or not.
    Nothing,
    /// Words that stand by themselves, with no option's name before them.
    Words(&'a str),
}

/// An option of the command line: its long name, the letter that stands for it too, what it takes, and what help says
/// of it.
#[derive(Clone, Copy)]
struct Choice<'a> {
    name: &'a str,
    letter: Option<char>,
    takes: Takes<'a>,
    help: &'a str,
}

/// All options, in the order of help. As a constant they would be built anew in the loop's function, text by text,
/// which is dear to prove.
static CHOICES: [Choice<'static>; 32] = [
    Choice {
        name: "schema",
        letter: Some('s'),
        takes: Takes::Text("FILE"),
        help: "The binary schema (.bfbs); without it, the input is taken to be schema files",
    },
    Choice {
        name: "root",
        letter: Some('r'),
        takes: Takes::Text("NAME"),
        help: "The root table with its namespace; without it, the schema's own",
    },
    Choice {
        name: "ident",
        letter: None,
        takes: Takes::Text("XXXX"),
        help: "The file identifier that each buffer must have",
    },
    Choice {
        name: "schema-ident",
        letter: None,
        takes: Takes::Nothing,
        help: "Each buffer must have the schema's own file identifier, where it declares one",
    },
    Choice {
        name: "path",
        letter: Some('p'),
        takes: Takes::Texts("P"),
        help: "Append the value at this path to the line of each good buffer; may be given up to 16 times",
    },
    Choice {
        name: "max-depth",
        letter: None,
        takes: Takes::Number(ValueParser::Signed(0, 4096), "64"),
        help: "Deepest nesting of tables, 0 to 4096",
    },
    Choice {
        name: "max-tables",
        letter: None,
        takes: Takes::Number(ValueParser::Signed(0, 4_294_967_295), "1000000"),
        help: "Most tables in one buffer, 0 to 4294967295",
    },
    Choice {
        name: "max-reads",
        letter: None,
        takes: Takes::Number(ValueParser::Unsigned(0, u64::MAX), "100000000"),
        help: "Most reads of one buffer, 0 to 18446744073709551615",
    },
    Choice {
        name: "reads-per-byte",
        letter: None,
        takes: Takes::Number(ValueParser::Signed(0, 4_294_967_295), "64"),
        help: "Most reads for each byte of a buffer and for 64 more, 0 to 4294967295",
    },
    Choice {
        name: "max-bytes",
        letter: None,
        takes: Takes::Number(ValueParser::Signed(8, 2_147_483_647), "67108864"),
        help: "Most bytes of a message, prefix included, 8 to 2147483647",
    },
    Choice {
        name: "skip",
        letter: None,
        takes: Takes::Number(ValueParser::Unsigned(0, u64::MAX), "0"),
        help: "Leave out so many bytes at the beginning of each input",
    },
    Choice {
        name: "limit",
        letter: None,
        takes: Takes::Most,
        help: "Check no more than so many messages of each input, from 1",
    },
    Choice {
        name: "max-bad",
        letter: None,
        takes: Takes::Most,
        help: "End an input after so many bad messages, from 1",
    },
    Choice {
        name: "bare",
        letter: None,
        takes: Takes::Nothing,
        help: "Each input is one bare buffer, not a stream",
    },
    Choice {
        name: "delimited",
        letter: None,
        takes: Takes::Nothing,
        help: "The four bytes with a message's length are no part of the buffer, which is a bare one",
    },
    Choice {
        name: "delimited-be",
        letter: None,
        takes: Takes::Nothing,
        help: "The same where the highest byte of the length comes first (big-endian)",
    },
    Choice {
        name: "no-alignment",
        letter: None,
        takes: Takes::Nothing,
        help: "Don't check alignment",
    },
    Choice {
        name: "inline-size",
        letter: None,
        takes: Takes::Nothing,
        help: "Require each field to end within its table's inline size",
    },
    Choice {
        name: "strict",
        letter: None,
        takes: Takes::Nothing,
        help: "Ask also what code generated by flatc relies on",
    },
    Choice {
        name: "plain-bytes",
        letter: None,
        takes: Takes::Nothing,
        help: "With --strict, take nested buffers and flexbuffers for bytes, and don't look inside",
    },
    Choice {
        name: "known-fields",
        letter: None,
        takes: Takes::Nothing,
        help: "Require each field that is present to be in the schema, and not deprecated",
    },
    Choice {
        name: "utf8",
        letter: None,
        takes: Takes::Nothing,
        help: "Require strings to be UTF-8",
    },
    Choice {
        name: "quiet",
        letter: Some('q'),
        takes: Takes::Nothing,
        help: "Print no lines for good buffers",
    },
    Choice {
        name: "filter",
        letter: None,
        takes: Takes::Nothing,
        help: "Pass good buffers on, and write lines of bad ones to standard error",
    },
    Choice {
        name: "summary",
        letter: None,
        takes: Takes::Nothing,
        help: "Write a line of what was counted to standard error at the end",
    },
    Choice {
        name: "names",
        letter: None,
        takes: Takes::Nothing,
        help: "End lines of bad buffers with the place in words",
    },
    Choice {
        name: "json",
        letter: Some('j'),
        takes: Takes::Nothing,
        help: "Write each line as a JSON object",
    },
    Choice {
        name: "csv",
        letter: None,
        takes: Takes::Nothing,
        help: "Write the values of good buffers as CSV, and lines of bad ones to standard error",
    },
    Choice {
        name: "rejects",
        letter: None,
        takes: Takes::Text("FILE"),
        help: "Write the bad buffers themselves to FILE, which is made, or emptied",
    },
    Choice {
        name: "with-filename",
        letter: Some('H'),
        takes: Takes::Nothing,
        help: "Begin lines with the file's name, also where there is one file alone",
    },
    Choice {
        name: "files0-from",
        letter: None,
        takes: Takes::Text("F"),
        help: "Read the names of the files from F, each ended by a zero byte; - for standard input",
    },
    Choice {
        name: "files",
        letter: None,
        takes: Takes::Words("FILE"),
        help: "The files to be read, - for standard input; without any, standard input",
    },
];

fn choice_arg<'a>(alloc: Global, choice: Choice<'a>) -> Arg<'a>
    ensures { (rule_of result ≡ choice_rule choice.entry) × (result.global ≡ false) }
{
    let arg = long_arg(alloc, choice);
    match choice.letter {
        Some(letter) => arg.short(letter),
        None => arg,
    }
}

/// The option by its long name, or a word by itself.
fn long_arg<'a>(alloc: Global, choice: Choice<'a>) -> Arg<'a>
    ensures { (rule_of result ≡ taking_rule choice.entry.name.now choice.entry.takes) × (result.global ≡ false) }
{
    let arg = Arg::new(alloc, choice.name).help(choice.help);
    match choice.takes {
        Takes::Text(value) => arg.long(choice.name).value_name(value),
        Takes::Texts(value) => arg
            .long(choice.name)
            .value_name(value)
            .action(ArgAction::Append),
        Takes::Number(parser, default) => arg
            .long(choice.name)
            .value_name("N")
            .value_parser(parser)
            .default_value(default)
            .action(ArgAction::Set),
        Takes::Most => arg
            .long(choice.name)
            .value_name("N")
            .value_parser(ValueParser::Unsigned(1, u64::MAX))
            .default_value("18446744073709551615")
            .hide_default_value(true)
            .action(ArgAction::Set),
        Takes::Nothing => arg.long(choice.name).action(ArgAction::SetTrue),
        Takes::Words(value) => arg.value_name(value).action(ArgAction::Append),
    }
}

/// The command by its name, which tells its version.
fn named<'a>(alloc: Global) -> Command<'a>
    ensures app { app_of result ≡ named }
{
    Command::new(alloc, "fbcheck")
        .about("Checks FlatBuffers in files or on standard input against a binary schema")
        .override_usage("fbcheck [OPTIONS] [FILE]... < INPUT")
        .version(VERSION)
        .long_version(LONG_VERSION)
}

/// The command `fbcheck` with its options.
pub(crate) fn command<'a>(alloc: Global) -> Result<Command<'a>, AllocError>
    ensures app { IfOk result (λ c. app_of c ≡ program) }
{
    let mut command = named(alloc);
    for choice in &CHOICES {
        command = command.arg(choice_arg(alloc, *choice))?;
    }
    Ok(command)
}
