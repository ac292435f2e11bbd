//! The values of commands: their options and positional arguments, and how they are read.
ghost use Rattle.std.specs.Prelude.{◌≡◌, codes, false, option_map};
ghost use Rattle.clap.specs.Matches.{found_of};
ghost use Rattle.clap.specs.Simple.{app_of, new_app, with_rule};
ghost use Rattle.clap.specs.Walk.{first_of, rows_of, rule_of};
ghost use Rattle.clap.specs.declared.builder.command.Command.TheViews.{out-Command as fields_of};
ghost use Rattle.desk_wire.specs.Decimals.{count_in};
ghost use Rattle.desk_wire.specs.Hexadecimal.{addr_in};
ghost use Rattle.registry_core.specs.JsonIntegers.{greatest_json_integer};
ghost use Rattle.desk_engine.specs.Log.{message_number};
ghost use Rattle.desk_cli.specs.Numbers.{connections_of, port_of};
ghost use Rattle.desk_cli.specs.steps.CommandLine.{AddsWord, IsCommand};
ghost use Rattle.desk_cli.specs.steps.Options.{behind};
ghost use Rattle.desk_cli.specs.Options.{config_of, flag_rule, is_set, list_in, name_of, option_rule, optional_rule, place_rule, placed, required_rule, settings_from, value_at, value_or, with_settings};

use crate::numbers::{connections_of, port_of};
use crate::usage::BadValue;
use clap::{Arg, ArgAction, ArgMatches};
use desk_engine::{ListOf, message_number};
use desk_wire::{addr_of, count_of};
use radio_core::Name;
use registry_core::{Config, GREATEST_JSON_INTEGER, JsonInteger};
use std::alloc::{AllocError, Global};

/// Returns a command without arguments: its name, what it does, and an example.
pub(crate) fn command<'a>(
    alloc: Global,
    name: &'a str,
    about: &'a str,
    example: &'a str,
) -> clap::Command<'a>
    ensures app { app_of result ≡ new_app name.entry.now }
    ensures local { (fields_of result).has_globals ≡ false }
{
    clap::Command::new(alloc, name)
        .about(about)
        .after_help(example)
}

/// Adds an argument to a command.
///
/// # Errors
///
/// Returns the command's error, and `AllocError` if an allocation failed.
pub(crate) fn with_word<'a>(
    command: Result<clap::Command<'a>, AllocError>,
    word: Arg<'a>,
) -> Result<clap::Command<'a>, AllocError>
    ensures { AddsWord command.entry word.entry result }
{
    command?.arg(word)
}

/// Returns a command on a desk's file, which is its first positional argument.
pub(crate) fn command_on_file<'a>(
    alloc: Global,
    name: &'a str,
    about: &'a str,
    example: &'a str,
) -> Result<clap::Command<'a>, AllocError>
    ensures { IsCommand (with_rule (new_app name.entry.now) (place_rule (codes "file"))) result }
{
    let file = place(alloc, "file", "FILE", "The desk's file");
    with_word(Ok(command(alloc, name, about, example)), file)
}

/// Returns an option of one value, with its default.
pub(crate) fn option<'a>(
    alloc: Global,
    name: &'a str,
    form: &'a str,
    default: &'a str,
    help: &'a str,
) -> Arg<'a>
    ensures rule { rule_of result ≡ option_rule name.entry.now default.entry.now }
    ensures local { result.global ≡ false }
{
    Arg::new(alloc, name)
        .long(name)
        .value_name(form)
        .default_value(default)
        .help(help)
}

/// Returns an option of one value that has to be given.
pub(crate) fn required_option<'a>(
    alloc: Global,
    name: &'a str,
    form: &'a str,
    help: &'a str,
) -> Arg<'a>
    ensures rule { rule_of result ≡ required_rule name.entry.now }
    ensures local { result.global ≡ false }
{
    Arg::new(alloc, name)
        .long(name)
        .value_name(form)
        .required(true)
        .help(help)
}

/// Returns an option of one value that may be left out.
pub(crate) fn optional<'a>(alloc: Global, name: &'a str, form: &'a str, help: &'a str) -> Arg<'a>
    ensures rule { rule_of result ≡ optional_rule name.entry.now }
    ensures local { result.global ≡ false }
{
    Arg::new(alloc, name).long(name).value_name(form).help(help)
}

/// Returns an option without a value.
pub(crate) fn flag<'a>(alloc: Global, name: &'a str, help: &'a str) -> Arg<'a>
    ensures rule { rule_of result ≡ flag_rule name.entry.now }
    ensures local { result.global ≡ false }
{
    Arg::new(alloc, name)
        .long(name)
        .action(ArgAction::SetTrue)
        .help(help)
}

/// Returns a positional argument that has to be given.
pub(crate) fn place<'a>(alloc: Global, name: &'a str, form: &'a str, help: &'a str) -> Arg<'a>
    ensures rule { rule_of result ≡ place_rule name.entry.now }
    ensures local { result.global ≡ false }
{
    Arg::new(alloc, name)
        .value_name(form)
        .required(true)
        .help(help)
}

/// Returns a command with the four options of a desk's configuration.
pub(crate) fn command_with_settings<'a>(
    alloc: Global,
    name: &'a str,
    about: &'a str,
    example: &'a str,
) -> Result<clap::Command<'a>, AllocError>
    ensures { IsCommand (with_settings (new_app name.entry.now)) result }
{
    let receiver = option(alloc, "receiver", "NAME", "desk", "The desk's own name");
    let operator = option(alloc, "operator", "NAME", "office", "The first operator");
    let base = option(
        alloc,
        "base",
        "HEX8",
        "01a00000",
        "The first device address",
    );
    let addresses = option(
        alloc,
        "addresses",
        "COUNT",
        "65536",
        "How many device addresses",
    );
    let command = with_word(Ok(command(alloc, name, about, example)), receiver);
    with_word(with_word(with_word(command, operator), base), addresses)
}

/// Returns the configuration that the four options give, or the first value that is bad.
#[tactic(auto, unfolding(crate::specs::Options::config_of))]
pub(crate) fn config_of(options: &ArgMatches<'_>) -> Result<Config, BadValue>
    ensures { result ≡ config_of (rows_of (found_of options.now)) }
{
    let receiver = name_at(options, "receiver").ok_or(BadValue::Receiver)?;
    let operator = name_at(options, "operator").ok_or(BadValue::Operator)?;
    let base = base_at(options, "base").ok_or(BadValue::Base)?;
    let addresses = count_at(options, "addresses").ok_or(BadValue::Addresses)?;
    settings_of(receiver, operator, base, addresses).ok_or(BadValue::Block)
}

fn settings_of(receiver: Name, operator: Name, base: u32, addresses: u32) -> Option<Config>
    ensures { result ≡ settings_from receiver operator base addresses }
{
    Config::new(receiver, operator, base, addresses)
}

pub(crate) fn name_at(options: &ArgMatches<'_>, option: &str) -> Option<Name>
    ensures { result ≡ value_at name_of option.now (rows_of (found_of options.now)) }
{
    name_of(option_text(options, option)?)
}

fn base_at(options: &ArgMatches<'_>, option: &str) -> Option<u32>
    ensures { result ≡ value_at addr_in option.now (rows_of (found_of options.now)) }
{
    Some(addr_of(option_text(options, option)?)?.get())
}

fn count_at(options: &ArgMatches<'_>, option: &str) -> Option<u32>
    ensures { result ≡ value_at count_in option.now (rows_of (found_of options.now)) }
{
    count_of(option_text(options, option)?)
}

pub(crate) fn port_at(options: &ArgMatches<'_>, option: &str) -> Option<u16>
    ensures { result ≡ value_at port_of option.now (rows_of (found_of options.now)) }
{
    port_of(option_text(options, option)?)
}

pub(crate) fn connections_at(options: &ArgMatches<'_>, option: &str) -> Option<u32>
    ensures { result ≡ value_at connections_of option.now (rows_of (found_of options.now)) }
{
    connections_of(option_text(options, option)?)
}

/// Returns the list that an argument names, or `None` if it isn't there or names none.
pub(crate) fn list_at(options: &ArgMatches<'_>, place: &str) -> Option<ListOf>
    ensures { result ≡ value_at list_in place.now (rows_of (found_of options.now)) }
{
    list_of(option_text(options, place)?)
}

/// Returns the number that an option has, or `None` if it isn't there or isn't a number in the form.
pub(crate) fn number_at(options: &ArgMatches<'_>, option: &str) -> Option<JsonInteger>
    ensures { result ≡ value_at message_number option.now (rows_of (found_of options.now)) }
{
    message_number(option_text(options, option)?)
}

/// Returns the number that an option has, or the greatest if the option is left out.
pub(crate) fn number_or_greatest(options: &ArgMatches<'_>, option: &str) -> Option<JsonInteger>
    ensures { result ≡ value_or message_number greatest_json_integer option.now (rows_of (found_of options.now)) }
{
    match option_text(options, option) {
        Some(text) => message_number(text),
        None => JsonInteger::new(GREATEST_JSON_INTEGER),
    }
}

/// Returns whether an option without a value is given.
pub(crate) fn is_set(options: &ArgMatches<'_>, option: &str) -> bool
    ensures { result ≡ is_set option.now (rows_of (found_of options.now)) }
{
    match option_text(options, option) {
        Some(text) => text == "true",
        None => false,
    }
}

#[tactic(auto, unfolding(crate::specs::Options::list_in))]
fn list_of(text: &str) -> Option<ListOf>
    ensures { result ≡ list_in text.now }
{
    match text {
        "senders" => Some(ListOf::Senders),
        "owners" => Some(ListOf::Owners),
        "gateways" => Some(ListOf::Gateways),
        "devices" => Some(ListOf::Devices),
        _ => None,
    }
}

fn name_of(text: &str) -> Option<Name>
    ensures { result ≡ name_of text.now }
{
    Name::new(text.as_bytes())
}

/// Returns the positional argument of this name, or `Missing` if it isn't given.
pub(crate) fn placed<'a>(options: &ArgMatches<'a>, place: &str) -> Result<&'a str, BadValue>
    ensures { behind result ≡ placed place.now (rows_of (found_of options.now)) }
{
    option_text(options, place).ok_or(BadValue::Missing)
}

/// Returns the value of an option or of a positional argument, or `None` if it isn't given.
pub(crate) fn option_text<'a>(options: &ArgMatches<'a>, option: &str) -> Option<&'a str>
    ensures { option_map (λ text. text.now) result ≡ first_of option.now (rows_of (found_of options.now)) }
{
    options.get_str(option)
}
