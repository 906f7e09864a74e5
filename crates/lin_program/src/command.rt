//! The command line as `clap` knows it.
ghost use Rattle.std.specs.Prelude.{◌≡◌, Some, IfOk, map, true, false};
ghost use Rattle.clap.specs.Words.{app_of, kind_of, rule_of};
ghost use Rattle.clap.specs.declared.builder.value_parser.ValueParser.TheVariants.{Names};
ghost use Rattle.clap.specs.declared.builder.command.Command.TheViews.{out-Command as fields_of};
ghost use Rattle.lin_program.specs.CommandLine.{all_keys_rule, budget_rule, check_app, draw_app, edit_app, explain_app, file_rule, files_rule, format_rule, key_rule, keyed_rule, kind_rule, last_rule, least_rule, optional_file_rule, order_file_rule, order_flag_rule, program_app, refusal_kind, verify_app, with_options as options_of, with_report_options as report_options_of, AreParsers, Parsers};
ghost use Rattle.lin_program.specs.CommandLine as said;

use crate::misuse::NoLine;
use crate::version::VERSION;
use clap::builder::ValueParser;
use clap::{Arg, ArgAction, Command, Error};
use lin_texts::kind_words;
use std::alloc::{AllocError, Global};

/// The greatest number of events of a file.
const MOST_EVENTS: u64 = 1_000_000;

/// The greatest number of operations of a picture.
const MOST_DRAWN: u64 = 1_000;

/// The words for the ways in which an answer is printed.
const FORMATS: [&str; 2] = ["text", "json"];

/// What stands below the help of `edit`: its commands.
const EDIT_COMMANDS: &str =
    "Commands, a line each on standard input:\n  append MAP     puts an event last\n  replace N MAP  puts an event in place of the one at position N\n  remove N       takes the event at position N out\n  truncate N     keeps the first N events\n  kind KEY KIND  names the kind of one object\n  budget N       names the budget\n  ask [KEY]      asks for the whole, or for one object\n  order [KEY]    the same, and tells a legal order\n  report         asks for all objects and the whole\n  explain [KEY]  tells why the answer is what it is\n  refute KEY     makes a refutation of one object and checks it\n  pull           reads FILE to its present end and appends its events\n  work           tells how much was done so far\nExample: printf 'pull\\nask\\n' | lincheck edit history.edn";

fn format_words<'a>() -> &'a [&'a str]
    ensures { map (λ word. word.now) result.now ≡ said.format_words }
{
    FORMATS.as_slice()
}

fn kind_option<'a>(alloc: Global, kinds: &'a [&'a str]) -> Arg<'a>
    ensures rule { rule_of result ≡ kind_rule (Names kinds.entry) }
    ensures local { (result.required ≡ false) × (result.global ≡ false) }
{
    Arg::new(alloc, "kind")
        .long("kind")
        .value_name("KIND")
        .help("What the objects are")
        .action(ArgAction::Set)
        .value_parser(kinds)
        .default_value("register")
}

fn budget_option<'a>(alloc: Global) -> Arg<'a>
    ensures rule { rule_of result ≡ budget_rule }
    ensures local { (result.required ≡ false) × (result.global ≡ false) }
{
    Arg::new(alloc, "budget")
        .long("budget")
        .value_name("N")
        .help("How many configurations are kept for one object, 1 to 1000000")
        .action(ArgAction::Set)
        .value_parser(ValueParser::unsigned(1, 1_000_000))
        .default_value("65536")
}

fn least_option<'a>(alloc: Global) -> Arg<'a>
    ensures rule { rule_of result ≡ least_rule }
    ensures local { (result.required ≡ false) × (result.global ≡ false) }
{
    Arg::new(alloc, "at-least")
        .long("at-least")
        .value_name("N")
        .help("Refuse a FILE with fewer events of clients, 1 to 1000000")
        .action(ArgAction::Set)
        .value_parser(ValueParser::unsigned(1, MOST_EVENTS))
}

fn keyed_option<'a>(alloc: Global) -> Arg<'a>
    ensures rule { rule_of result ≡ keyed_rule }
    ensures local { (result.required ≡ false) × (result.global ≡ false) }
{
    Arg::new(alloc, "keyed")
        .long("keyed")
        .help("Values are pairs [key value], one object for each key")
        .action(ArgAction::SetTrue)
}

fn file_argument<'a>(alloc: Global) -> Arg<'a>
    ensures rule { rule_of result ≡ file_rule }
    ensures local { result.global ≡ false }
{
    Arg::new(alloc, "file")
        .value_name("FILE")
        .help("A recorded history, operation maps in EDN; - is standard input")
        .required(true)
        .action(ArgAction::Set)
}

fn files_argument<'a>(alloc: Global, help: &'a str) -> Arg<'a>
    ensures rule { rule_of result ≡ files_rule }
    ensures local { result.global ≡ false }
{
    Arg::new(alloc, "file")
        .value_name("FILE")
        .help(help)
        .required(true)
        .num_args(1..)
        .action(ArgAction::Append)
}

fn optional_file_argument<'a>(alloc: Global) -> Arg<'a>
    ensures rule { rule_of result ≡ optional_file_rule }
    ensures local { (result.required ≡ false) × (result.global ≡ false) }
{
    Arg::new(alloc, "file")
        .value_name("FILE")
        .help("A recorded history to pull from, operation maps in EDN")
        .action(ArgAction::Set)
}

fn order_file_option<'a>(alloc: Global) -> Arg<'a>
    ensures rule { rule_of result ≡ order_file_rule }
    ensures local { (result.required ≡ false) × (result.global ≡ false) }
{
    Arg::new(alloc, "order-file")
        .long("order-file")
        .value_name("ORDERS")
        .help("A file that holds the order, in place of ORDER; - is standard input")
        .action(ArgAction::Set)
}

fn key_option<'a>(alloc: Global) -> Arg<'a>
    ensures rule { rule_of result ≡ key_rule }
    ensures local { (result.required ≡ false) × (result.global ≡ false) }
{
    Arg::new(alloc, "key")
        .long("key")
        .value_name("KEY")
        .help("This object alone, not the whole; a key below zero as --key=-1")
        .action(ArgAction::Set)
}

fn last_option<'a>(alloc: Global) -> Arg<'a>
    ensures rule { rule_of result ≡ last_rule }
    ensures local { (result.required ≡ false) × (result.global ≡ false) }
{
    Arg::new(alloc, "last")
        .long("last")
        .value_name("N")
        .help("Draw up to N operations, 1 to 1000, however wide that is")
        .action(ArgAction::Set)
        .value_parser(ValueParser::unsigned(1, MOST_DRAWN))
}

fn all_keys_flag<'a>(alloc: Global) -> Arg<'a>
    ensures rule { rule_of result ≡ all_keys_rule }
    ensures local { (result.required ≡ false) × (result.global ≡ false) }
{
    Arg::new(alloc, "all-keys")
        .long("all-keys")
        .help("Explain each object that isn't a yes")
        .action(ArgAction::SetTrue)
}

fn order_flag<'a>(alloc: Global) -> Arg<'a>
    ensures rule { rule_of result ≡ order_flag_rule }
    ensures local { (result.required ≡ false) × (result.global ≡ false) }
{
    Arg::new(alloc, "order")
        .long("order")
        .help("End a yes with a legal order")
        .action(ArgAction::SetTrue)
}

fn format_option<'a>(alloc: Global, formats: &'a [&'a str]) -> Arg<'a>
    ensures rule { rule_of result ≡ format_rule (Names formats.entry) }
    ensures local { (result.required ≡ false) × (result.global ≡ false) }
{
    Arg::new(alloc, "format")
        .long("format")
        .value_name("FORMAT")
        .help("How the answer is printed")
        .action(ArgAction::Set)
        .value_parser(formats)
        .default_value("text")
}

/// The command with the options that each command has.
fn with_options<'a>(
    alloc: Global,
    kinds: &'a [&'a str],
    command: Command<'a>,
) -> Result<Command<'a>, AllocError>
    ensures app { IfOk result (λ all. app_of all ≡ options_of (Names kinds.entry) (app_of command.entry)) }
    ensures local { IfOk result (λ all. (fields_of all).has_globals ≡ (fields_of command.entry).has_globals) }
{
    command
        .arg(kind_option(alloc, kinds))?
        .arg(keyed_option(alloc))?
        .arg(budget_option(alloc))
}

/// The command with the options of each command that tells of a file what it found.
fn with_report_options<'a>(
    alloc: Global,
    kinds: &'a [&'a str],
    command: Command<'a>,
) -> Result<Command<'a>, AllocError>
    ensures app { IfOk result (λ all. app_of all ≡ report_options_of (Names kinds.entry) (app_of command.entry)) }
    ensures local { IfOk result (λ all. (fields_of all).has_globals ≡ (fields_of command.entry).has_globals) }
{
    with_options(alloc, kinds, command)?.arg(least_option(alloc))
}

fn check_command<'a>(
    alloc: Global,
    kinds: &'a [&'a str],
    formats: &'a [&'a str],
) -> Result<Command<'a>, AllocError>
    ensures app { IfOk result (λ command. app_of command ≡ check_app (record { kinds = Names kinds.entry; formats = Names formats.entry })) }
    ensures local { IfOk result (λ command. (fields_of command).has_globals ≡ false) }
{
    let command = Command::new(alloc, "check")
        .about("Tells whether the history in each FILE is linearizable")
        .override_usage("lincheck check [OPTIONS] <FILE>...")
        .after_help("Example: lincheck check --kind fifo --format json history.edn")
        .arg(files_argument(
            alloc,
            "Recorded histories, operation maps in EDN; - is standard input",
        ))?
        .arg(format_option(alloc, formats))?;
    with_report_options(alloc, kinds, command)
}

fn explain_command<'a>(
    alloc: Global,
    kinds: &'a [&'a str],
    formats: &'a [&'a str],
) -> Result<Command<'a>, AllocError>
    ensures app { IfOk result (λ command. app_of command ≡ explain_app (record { kinds = Names kinds.entry; formats = Names formats.entry })) }
    ensures local { IfOk result (λ command. (fields_of command).has_globals ≡ false) }
{
    let command = Command::new(alloc, "explain")
        .about("Tells why the history in FILE is linearizable, or why it isn't")
        .after_help("Example: lincheck explain --keyed --key 3 history.edn")
        .arg(file_argument(alloc))?
        .arg(key_option(alloc))?
        .arg(all_keys_flag(alloc))?
        .arg(order_flag(alloc))?
        .arg(format_option(alloc, formats))?;
    with_report_options(alloc, kinds, command)
}

fn draw_command<'a>(alloc: Global, kinds: &'a [&'a str]) -> Result<Command<'a>, AllocError>
    ensures app { IfOk result (λ command. app_of command ≡ draw_app (Names kinds.entry)) }
    ensures local { IfOk result (λ command. (fields_of command).has_globals ≡ false) }
{
    let command = Command::new(alloc, "draw")
        .about("Prints a picture of the history in FILE, as SVG")
        .after_help("Example: lincheck draw --keyed --key 3 history.edn > history.svg")
        .arg(file_argument(alloc))?
        .arg(key_option(alloc))?
        .arg(last_option(alloc))?;
    with_report_options(alloc, kinds, command)
}

fn verify_command<'a>(alloc: Global, kinds: &'a [&'a str]) -> Result<Command<'a>, AllocError>
    ensures app { IfOk result (λ command. app_of command ≡ verify_app (Names kinds.entry)) }
    ensures local { IfOk result (λ command. (fields_of command).has_globals ≡ false) }
{
    let command = Command::new(alloc, "verify")
        .about("Tells whether an order is a legal order of the history in each FILE")
        .override_usage(
            "lincheck verify [OPTIONS] <FILE>... <ORDER>\n       lincheck verify [OPTIONS] --order-file <ORDERS> <FILE>...",
        )
        .after_help("Example: lincheck verify history.edn '0=done 2=1'")
        .arg(files_argument(
            alloc,
            "Recorded histories, operation maps in EDN; - is standard input. Without --order-file the last word is ORDER: operations with replies, as '0=done 2=1', or 'empty'",
        ))?
        .arg(order_file_option(alloc))?;
    with_options(alloc, kinds, command)
}

fn edit_command<'a>(alloc: Global, kinds: &'a [&'a str]) -> Result<Command<'a>, AllocError>
    ensures app { IfOk result (λ command. app_of command ≡ edit_app (Names kinds.entry)) }
    ensures local { IfOk result (λ command. (fields_of command).has_globals ≡ false) }
{
    let command = Command::new(alloc, "edit")
        .about(
            "Carries out the commands of standard input on a history; pull appends FILE's events",
        )
        .after_help(EDIT_COMMANDS)
        .arg(optional_file_argument(alloc))?;
    with_options(alloc, kinds, command)
}

/// The whole program's command.
pub fn program<'a>(alloc: Global) -> Result<Command<'a>, AllocError>
    ensures { IfOk result (λ command. (parsers : Parsers) × AreParsers parsers × (app_of command ≡ program_app parsers)) }
{
    let kinds = kind_words();
    let formats = format_words();
    Command::new(alloc, "lincheck")
        .about("Checks recorded histories for linearizability")
        .version(VERSION)
        .subcommand_required(true)
        .after_help(
            "Example: lincheck check history.edn\nExit status: 0 yes, 1 no, 2 undecided, 3 ill-formed, 4 input refused, 5 command line refused, 6 memory or a device failed",
        )
        .subcommand(check_command(alloc, kinds, formats)?)?
        .subcommand(explain_command(alloc, kinds, formats)?)?
        .subcommand(draw_command(alloc, kinds)?)?
        .subcommand(verify_command(alloc, kinds)?)?
        .subcommand(edit_command(alloc, kinds)?)
}

/// The command of this name, of those that can say no line.
fn refusing<'a>(alloc: Global, name: &str) -> Result<Command<'a>, AllocError> {
    let kinds = kind_words();
    match name {
        "verify" => verify_command(alloc, kinds),
        _ => check_command(alloc, kinds, format_words()),
    }
}

/// Why a command's words say no line, as `clap` tells what it refuses itself.
pub fn refusal(alloc: Global, name: &str, why: NoLine) -> Result<Error, AllocError>
    ensures { IfOk result (λ e. kind_of e ≡ refusal_kind why) }
{
    refusing(alloc, name)?.error(why.kind(), why.text())
}
