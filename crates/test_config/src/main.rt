//! Plays rows on configurations and words, one a line of standard input, and writes what each gives.
//!
//! `config TEXT` reads a configuration and writes how much of everything it has, or the number and the key of its first refusal.
//! `words WORD,WORD..` reads the words of a command and writes what they ask for, or `none`; `()` stands for an empty word. A row
//! that begins with `#` is written as it is. Texts have escapes, as the library of rows says.
#![tactic(auto)]

use command_words::{Form, read_words};
use config_reader::{ConfigEnd, read_config};
use gate_base::OutOfMemory;
use gate_config::Config;
use std::alloc::Global;
use std::io;
use test_rows::{from_text, word};

/// How much of everything a configuration has.
fn counts(alloc: Global, config: &Config) -> Result<String, OutOfMemory> {
    let workers = config.workers;
    let vms = config.vms.len();
    let plugins = config.plugins.len();
    let routes = config.routes.len();
    format!(in alloc; "ok workers {workers} vms {vms} plugins {plugins} routes {routes}")
}

/// What is told of a text that gives no configuration.
fn refusal(alloc: Global, end: &ConfigEnd) -> Result<String, OutOfMemory> {
    match end {
        ConfigEnd::Refused { number, key } => {
            let key = key.as_str();
            format!(in alloc; "{number} {key}")
        }
        ConfigEnd::OutOfMemory => String::from_str(alloc, "memory"),
    }
}

/// What a text gives.
fn configured(alloc: Global, text: &str) -> Result<String, OutOfMemory> {
    let bytes = from_text(alloc, text)?;
    match read_config(alloc, bytes.as_slice()) {
        Ok(config) => counts(alloc, &config),
        Err(end) => refusal(alloc, &end),
    }
}

/// The words of a row.
fn words_of(alloc: Global, text: &str) -> Result<Vec<String>, OutOfMemory> {
    let mut words = Vec::new(alloc);
    if text.is_empty() {
        return Ok(words);
    }
    for one in text.split(',') {
        let one = if one == "()" { "" } else { one };
        words.push(String::from_str(alloc, one)?)?;
    }
    Ok(words)
}

/// What a form asks for.
fn told(alloc: Global, form: &Form) -> Result<String, OutOfMemory> {
    match form {
        Form::Replay { script, modules } => {
            let count = modules.len();
            format!(in alloc; "replay {script} modules {count}")
        }
        Form::ReplayConfig { config, script } => {
            format!(in alloc; "replay {script} configuration {config}")
        }
        Form::Serve {
            config,
            stop_after: None,
        } => format!(in alloc; "serve {config}"),
        Form::Serve {
            config,
            stop_after: Some(n),
        } => format!(in alloc; "serve {config} until {n}"),
        Form::Check { config } => format!(in alloc; "check {config}"),
        Form::Invoke {
            module,
            export,
            arguments,
        } => {
            let count = arguments.len();
            format!(in alloc; "invoke {module} {export} arguments {count}")
        }
        Form::Generate { n } => format!(in alloc; "generate {n}"),
        Form::Report { module } => format!(in alloc; "report {module}"),
    }
}

/// What words ask for.
fn asked(alloc: Global, text: &str) -> Result<String, OutOfMemory> {
    let words = words_of(alloc, text)?;
    match read_words(alloc, words.as_slice())? {
        Some(form) => told(alloc, &form),
        None => String::from_str(alloc, "none"),
    }
}

/// What a row gives.
fn played(alloc: Global, row: &str) -> Result<String, OutOfMemory> {
    let (operation, text) = word(row);
    match operation {
        "config" => configured(alloc, text),
        "words" => asked(alloc, text),
        _ => String::from_str(alloc, "no such row"),
    }
}

fn main(rt: HostRuntime) -> io::Result<()> {
    let alloc = rt.alloc();
    for line in rt.lines(alloc) {
        let line = line?;
        let row = line.as_str();
        if row.starts_with("#") {
            println!(rt; "{row}")?;
            continue;
        }
        let text = played(alloc, row)?;
        println!(rt; "{text}")?;
    }
    Ok(())
}
