// The forms, read by `clap`: one simple command for each of them.
ghost use Rattle.std.specs.Prelude.{◌≡◌, ◌≢◌, true, false, IfOk, IfErr, Ok, Some, None, codes, map, option_map, string_bytes};
ghost use Rattle.clap.specs.Words.{HasMatchesOf, first_value, found_of, kind_of, new_app, new_rule, rule_of, takes, with_rule};
ghost use Rattle.command_words.specs.Forms.{is_replay, is_replay_config, is_serve, is_serve_until, is_check, is_invoke, is_generate, is_report, replay, replay_config, serve, check, invoke, generate, report, second, third, fourth, behind_two, behind_three, number_of, form_of, is_one, is_two, others_of, seen};

use crate::forms::{
    Form, is_check, is_generate, is_invoke, is_replay, is_replay_config, is_report, is_serve,
    is_serve_until, number_of,
};
use clap::error::ErrorKind;
use clap::{Arg, ArgAction, ArgMatches, Command, Error};
use gate_base::OutOfMemory;
use std::alloc::{AllocError, Global};

/// What the words ask for, and None exactly where they are of no form. Words of no form take no memory.
pub fn read_words<'a>(alloc: Global, words: &'a [String]) -> Result<Option<Form<'a>>, OutOfMemory>
    ensures form { IfOk result (λ f. option_map seen f ≡ form_of (map string_bytes words.entry.now)) }
    ensures no_form { form_of (map string_bytes words.entry.now) ≡ None → result ≡ Ok None }
{
    if is_replay(words) {
        return Ok(Some(read_replay(alloc, words)?));
    }
    if is_replay_config(words) {
        return Ok(Some(read_replay_config(alloc, words)?));
    }
    if is_serve(words) {
        return Ok(Some(read_serve(alloc, words)?));
    }
    if is_serve_until(words) {
        return Ok(Some(read_serve_until(alloc, words)?));
    }
    if is_check(words) {
        return Ok(Some(read_check(alloc, words)?));
    }
    read_others(alloc, words)
}

/// The rest of the forms.
fn read_others<'a>(alloc: Global, words: &'a [String]) -> Result<Option<Form<'a>>, OutOfMemory>
    ensures form { IfOk result (λ f. option_map seen f ≡ others_of (map string_bytes words.entry.now)) }
    ensures no_form { others_of (map string_bytes words.entry.now) ≡ None → result ≡ Ok None }
{
    if is_invoke(words) {
        return Ok(Some(read_invoke(alloc, words)?));
    }
    if is_generate(words) {
        return read_generate(alloc, words);
    }
    if is_report(words) {
        return Ok(Some(read_report(alloc, words)?));
    }
    Ok(None)
}

/// What `clap` reads of a command's word and one more.
fn one_matches<'a>(
    alloc: Global,
    name: &'static str,
    words: &'a [String],
) -> Result<ArgMatches<'a>, Error>
    requires { is_one (map string_bytes words.now) ≡ true }
    ensures value { IfOk result (λ m. first_value (found_of m) (codes "value") ≡ Some (second (map string_bytes words.entry.now))) }
    ensures err { IfErr result (λ e. kind_of e ≡ ErrorKind.OutOfMemory) }
{
    let command = Command::new(alloc, name).arg(needed(alloc, "value"))?;
    command.try_get_matches_from(words)
}

/// A value that has to be there.
fn needed<'a>(alloc: Global, id: &'static str) -> Arg<'a>
    ensures rule { rule_of result ≡ record (new_rule id.entry.now) { action = Some ArgAction.Set; required = true } }
    ensures local { result.global ≡ false }
{
    Arg::new(alloc, id).required(true).action(ArgAction::Set)
}

/// The word after a command's word.
fn read_one<'a>(
    alloc: Global,
    name: &'static str,
    words: &'a [String],
) -> Result<&'a str, OutOfMemory>
    requires { is_one (map string_bytes words.now) ≡ true }
    ensures { IfOk result (λ s. s.now ≡ second (map string_bytes words.entry.now)) }
{
    let matches = match one_matches(alloc, name, words) {
        Ok(matches) => matches,
        Err(_) => return Err(AllocError),
    };
    let Some(value) = matches.get_str("value") else {
        unreachable!()
    };
    Ok(value)
}

/// Reads `replay SCRIPT MODULE..`: the script by `clap`, and the modules as they stand after it.
#[tactic(auto, using(crate::proofs::Cut::replay_long))]
fn read_replay<'a>(alloc: Global, words: &'a [String]) -> Result<Form<'a>, OutOfMemory>
    requires { is_replay (map string_bytes words.now) ≡ true }
    ensures { IfOk result (λ f. seen f ≡ replay (second (map string_bytes words.entry.now)) (behind_two (map string_bytes words.entry.now))) }
{
    let script = read_one(alloc, "replay", &words[..2])?;
    Ok(Form::Replay {
        script,
        modules: &words[2..],
    })
}

/// Reads `serve CONFIG`.
fn read_serve<'a>(alloc: Global, words: &'a [String]) -> Result<Form<'a>, OutOfMemory>
    requires { is_serve (map string_bytes words.now) ≡ true }
    ensures { IfOk result (λ f. seen f ≡ serve (second (map string_bytes words.entry.now)) None) }
{
    Ok(Form::Serve {
        config: read_one(alloc, "serve", words)?,
        stop_after: None,
    })
}

/// Reads `check CONFIG`.
fn read_check<'a>(alloc: Global, words: &'a [String]) -> Result<Form<'a>, OutOfMemory>
    requires { is_check (map string_bytes words.now) ≡ true }
    ensures { IfOk result (λ f. seen f ≡ check (second (map string_bytes words.entry.now))) }
{
    Ok(Form::Check {
        config: read_one(alloc, "check", words)?,
    })
}

/// Reads `generate N`.
fn read_generate<'a>(alloc: Global, words: &'a [String]) -> Result<Option<Form<'a>>, OutOfMemory>
    requires { is_generate (map string_bytes words.now) ≡ true }
    ensures form { IfOk result (λ f. option_map seen f ≡ option_map generate (number_of (second (map string_bytes words.entry.now)))) }
    ensures number { number_of (second (map string_bytes words.entry.now)) ≢ None }
{
    let n = read_one(alloc, "generate", words)?;
    match number_of(n) {
        Some(n) => Ok(Some(Form::Generate { n })),
        None => Ok(None),
    }
}

/// Reads `report MODULE`.
fn read_report<'a>(alloc: Global, words: &'a [String]) -> Result<Form<'a>, OutOfMemory>
    requires { is_report (map string_bytes words.now) ≡ true }
    ensures { IfOk result (λ f. seen f ≡ report (second (map string_bytes words.entry.now))) }
{
    Ok(Form::Report {
        module: read_one(alloc, "report", words)?,
    })
}

/// What `clap` reads of `invoke MODULE EXPORT`.
fn invoke_matches<'a>(alloc: Global, words: &'a [String]) -> Result<ArgMatches<'a>, Error>
    requires { is_two (map string_bytes words.now) ≡ true }
    ensures file { IfOk result (λ m. first_value (found_of m) (codes "module") ≡ Some (second (map string_bytes words.entry.now))) }
    ensures export { IfOk result (λ m. first_value (found_of m) (codes "export") ≡ Some (third (map string_bytes words.entry.now))) }
    ensures err { IfErr result (λ e. kind_of e ≡ ErrorKind.OutOfMemory) }
{
    let module = needed(alloc, "module");
    let export = needed(alloc, "export");
    two_matches(alloc, "invoke", module, export, words)
}

/// What `clap` reads of the words of a command with two arguments.
fn two_matches<'a>(
    alloc: Global,
    name: &'static str,
    first: Arg<'a>,
    second: Arg<'a>,
    words: &'a [String],
) -> Result<ArgMatches<'a>, Error>
    requires first_local { first.global ≡ false }
    requires second_local { second.global ≡ false }
    ensures matches { IfOk result (HasMatchesOf (with_rule (with_rule (new_app name.entry.now) (rule_of first.entry)) (rule_of second.entry)) (map string_bytes words.entry.now)) }
    ensures passes { IfErr result (λ e. takes (with_rule (with_rule (new_app name.entry.now) (rule_of first.entry)) (rule_of second.entry)) (map string_bytes words.entry.now) ≡ true → kind_of e ≡ ErrorKind.OutOfMemory) }
{
    let command = Command::new(alloc, name).arg(first)?.arg(second)?;
    command.try_get_matches_from(words)
}

/// The two words after a command's word.
fn read_two<'a>(alloc: Global, words: &'a [String]) -> Result<(&'a str, &'a str), OutOfMemory>
    requires { is_two (map string_bytes words.now) ≡ true }
    ensures { IfOk result (λ p. (p.0.now ≡ second (map string_bytes words.entry.now)) × (p.1.now ≡ third (map string_bytes words.entry.now))) }
{
    let matches = match invoke_matches(alloc, words) {
        Ok(matches) => matches,
        Err(_) => return Err(AllocError),
    };
    let Some(module) = matches.get_str("module") else {
        unreachable!()
    };
    let Some(export) = matches.get_str("export") else {
        unreachable!()
    };
    Ok((module, export))
}

/// Reads `invoke MODULE EXPORT ARGUMENT..`: the module and the export by `clap`, and the arguments as they stand after them.
#[tactic(auto, using(crate::proofs::Cut::invoke_long))]
fn read_invoke<'a>(alloc: Global, words: &'a [String]) -> Result<Form<'a>, OutOfMemory>
    requires { is_invoke (map string_bytes words.now) ≡ true }
    ensures { IfOk result (λ f. seen f ≡ invoke (second (map string_bytes words.entry.now)) (third (map string_bytes words.entry.now)) (behind_three (map string_bytes words.entry.now))) }
{
    let (module, export) = read_two(alloc, &words[..3])?;
    Ok(Form::Invoke {
        module,
        export,
        arguments: &words[3..],
    })
}

/// What `clap` reads of `replay --config CONFIG SCRIPT`.
fn replay_matches<'a>(alloc: Global, words: &'a [String]) -> Result<ArgMatches<'a>, Error>
    requires { is_replay_config (map string_bytes words.now) ≡ true }
    ensures config { IfOk result (λ m. first_value (found_of m) (codes "config") ≡ Some (third (map string_bytes words.entry.now))) }
    ensures script { IfOk result (λ m. first_value (found_of m) (codes "script") ≡ Some (fourth (map string_bytes words.entry.now))) }
    ensures err { IfErr result (λ e. kind_of e ≡ ErrorKind.OutOfMemory) }
{
    let config = needed(alloc, "config").long("config");
    let script = needed(alloc, "script");
    two_matches(alloc, "replay", config, script, words)
}

/// Reads `replay --config CONFIG SCRIPT`.
fn read_replay_config<'a>(alloc: Global, words: &'a [String]) -> Result<Form<'a>, OutOfMemory>
    requires { is_replay_config (map string_bytes words.now) ≡ true }
    ensures { IfOk result (λ f. seen f ≡ replay_config (third (map string_bytes words.entry.now)) (fourth (map string_bytes words.entry.now))) }
{
    let matches = match replay_matches(alloc, words) {
        Ok(matches) => matches,
        Err(_) => return Err(AllocError),
    };
    let Some(config) = matches.get_str("config") else {
        unreachable!()
    };
    let Some(script) = matches.get_str("script") else {
        unreachable!()
    };
    Ok(Form::ReplayConfig { config, script })
}

/// What `clap` reads of `serve CONFIG --stop-after N`.
fn serve_matches<'a>(alloc: Global, words: &'a [String]) -> Result<ArgMatches<'a>, Error>
    requires { is_serve_until (map string_bytes words.now) ≡ true }
    ensures config { IfOk result (λ m. first_value (found_of m) (codes "config") ≡ Some (second (map string_bytes words.entry.now))) }
    ensures stop { IfOk result (λ m. first_value (found_of m) (codes "stop") ≡ Some (fourth (map string_bytes words.entry.now))) }
    ensures err { IfErr result (λ e. kind_of e ≡ ErrorKind.OutOfMemory) }
{
    let config = needed(alloc, "config");
    let stop = Arg::new(alloc, "stop")
        .long("stop-after")
        .action(ArgAction::Set);
    two_matches(alloc, "serve", config, stop, words)
}

/// Reads `serve CONFIG --stop-after N`.
fn read_serve_until<'a>(alloc: Global, words: &'a [String]) -> Result<Form<'a>, OutOfMemory>
    requires { is_serve_until (map string_bytes words.now) ≡ true }
    ensures { IfOk result (λ f. seen f ≡ serve (second (map string_bytes words.entry.now)) (number_of (fourth (map string_bytes words.entry.now)))) }
{
    let matches = match serve_matches(alloc, words) {
        Ok(matches) => matches,
        Err(_) => return Err(AllocError),
    };
    let Some(config) = matches.get_str("config") else {
        unreachable!()
    };
    let Some(n) = matches.get_str("stop") else {
        unreachable!()
    };
    Ok(Form::Serve {
        config,
        stop_after: number_of(n),
    })
}
