//! Options by their names and values.

ghost use Rattle.std.specs.Prelude.{◌≡◌, IfSome};
ghost use Rattle.m4_outcome.specs.Words.{algo_named, answer_form_named, form_named, once, with_option};
ghost use Rattle.m4_words.specs.Small.{AreSmall};

use crate::number::number_between;
use m4_model::{Algo, Form, LEAST_CUTOFF, MOST_CUTOFF};
use m4_outcome::Choices;

/// The choices with one more option, of this name and this value. There is none of another name, with another value, or
/// of a name that was given before.
pub(crate) fn with_option(choices: Choices, name: &str, value: &str) -> Option<Choices>
    requires small { AreSmall choices }
    ensures more { result ≡ with_option name.now value.now choices }
    ensures small { IfSome result AreSmall }
{
    match name {
        "--algo" => Some(Choices {
            algo: Some(once(choices.algo, algo_named(value))?),
            ..choices
        }),
        "--k" => Some(Choices {
            k: Some(once(choices.k, number_between(1, 8, value))?),
            ..choices
        }),
        "--tables" => Some(Choices {
            tables: Some(once(choices.tables, number_between(1, 8, value))?),
            ..choices
        }),
        "--cutoff" => Some(Choices {
            cutoff: Some(once(
                choices.cutoff,
                number_between(LEAST_CUTOFF, MOST_CUTOFF, value),
            )?),
            ..choices
        }),
        "--in" => Some(Choices {
            from: Some(once(choices.from, form_named(value))?),
            ..choices
        }),
        "--out" => Some(Choices {
            into: Some(once(choices.into, answer_form_named(value))?),
            ..choices
        }),
        _ => None,
    }
}

/// The value of an option that has not been given before.
fn once<T: Copy>(before: Option<T>, value: Option<T>) -> Option<T>
    ensures { result ≡ once before value }
{
    match before {
        None => value,
        Some(_) => None,
    }
}

/// The algorithm that a value names.
fn algo_named(value: &str) -> Option<Algo>
    ensures { result ≡ algo_named value.now }
{
    match value {
        "plain" => Some(Algo::Plain),
        "table" => Some(Algo::Table),
        "strassen" => Some(Algo::Strassen),
        _ => None,
    }
}

/// The form of answers that a value names.
fn answer_form_named(value: &str) -> Option<Form>
    ensures { result ≡ answer_form_named value.now }
{
    match value {
        "hex" => Some(Form::Hex),
        _ => form_named(value),
    }
}

/// The form of files that a value names.
fn form_named(value: &str) -> Option<Form>
    ensures { result ≡ form_named value.now }
{
    match value {
        "text" => Some(Form::Headed),
        "bare" => Some(Form::Bare),
        "jcf" => Some(Form::Jcf),
        _ => None,
    }
}
