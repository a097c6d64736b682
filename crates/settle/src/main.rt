// Reads a job file, of an argument's name or from standard input, runs it with no choices and prints the statements.
#![tactic(auto)]

use crate::input::{Failure, settle_input};
use std::env::FillError;
use std::fmt::InlineText;
use std::io::Read;
use std::rt::{Env, Files};
use std::{fs, io, str};

mod due;
mod input;
mod statements;

// As many bytes as the longest name has.
const NAME: usize = 4_096;

// The text of an error of the system, without the number that std puts behind it.
fn reason(text: &str) -> &str {
    match text.split_once(" (os error ") {
        Some((words, _)) => words,
        None => text,
    }
}

// Says on standard error what failed, and why.
fn tell(rt: &impl Eprint, what: &str, error: io::Error) {
    let text = InlineText::<256>::of(error);
    let why = reason(text.as_str());
    let _ = eprintln!(rt; "settle: {what}: {why}");
}

// Settles what a reader brings, and says on standard error what failed. Where it cannot be read nothing is printed.
fn settle(rt: &(impl Print + Eprint), input: &mut impl Read, name: &str) {
    match settle_input(input, &mut io::writer(rt)) {
        Ok(()) => {}
        Err(Failure::Unread(error)) => tell(rt, name, error),
        Err(Failure::Unwritten(_)) => {
            let _ = eprintln!(rt; "settle: the output cannot be written");
        }
    }
}

// Settles the file of this name.
fn settle_file(rt: &(impl Files + Print + Eprint), name: &str) {
    match fs::open(rt, name) {
        Ok(mut file) => settle(rt, &mut file, name),
        Err(error) => tell(rt, name, error),
    }
}

// Settles the file that the argument names.
fn settle_argument(rt: &(impl Env + Files + Print + Eprint)) {
    let mut name = [0u8; NAME];
    let Ok(n) = rt.arg(1, &mut name) else {
        let _ = eprintln!(rt; "settle: the file's name: File name too long");
        return;
    };
    if n == 0 {
        let _ = eprintln!(rt; "settle: the file's name is empty");
        return;
    }
    match str::from_utf8(&name[..n]) {
        Ok(text) => settle_file(rt, text),
        Err(_) => {
            let _ = eprintln!(rt; "settle: the file's name is not UTF-8");
        }
    }
}

// Whether the program was given so many arguments.
fn is_given(rt: &impl Env, arguments: usize) -> bool {
    !matches!(rt.arg(arguments, &mut []), Err(FillError::NotPresent))
}

fn main(rt: HostRuntime) {
    if is_given(&rt, 2) {
        let _ = eprintln!(rt; "usage: settle [FILE]");
    } else if is_given(&rt, 1) {
        settle_argument(&rt);
    } else {
        settle(&rt, &mut rt.stdin(), "standard input");
    }
}
