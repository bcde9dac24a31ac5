//! The selection that the options of a list describe.
ghost use Rattle.std.specs.Prelude.{◌≡◌, nat_eq, IfOk, IfErr, codes};
ghost use Rattle.std.specs.List.{count_by, list_all};
ghost use Rattle.clap.specs.Matches.{first_value, found_of};
ghost use Rattle.ptdump.specs.Reasons.{IsMistake};
ghost use Rattle.ptdump.specs.Selections.{AreRights, IsSelection, are_letters, is_once};
ghost use Rattle.x86_64_mappings.specs.declared.selection.Selection.{Selection};
ghost use Rattle.x86_64_model.specs.Mappings.{Rights as Allowed};

use crate::numbers::{NumberOption, option_of};
use crate::stop::Stop;
use clap::ArgMatches;
use ptdump_engine::Selection;
use x86_64_tables::page_table::Rights;

/// Returns the selection that the arguments of a list describe, or that of everything if they have none.
///
/// # Errors
///
/// What is wrong with the words.
pub fn selection_of<'a>(arguments: &ArgMatches<'a>) -> Result<Selection, Stop<'a>>
    ensures ok { IfOk result (IsSelection (found_of arguments.now)) }
    ensures err { IfErr result (λ _. (selection : Selection) →
        ¬ (IsSelection (found_of arguments.now) selection)) }
    ensures reason { IfErr result (IsMistake (found_of arguments.now)) }
{
    Ok(Selection {
        from: option_of(arguments, NumberOption::From)?,
        to: option_of(arguments, NumberOption::To)?,
        rights: rights_of(arguments)?,
    })
}

/// Reads the letters of rights, if they are given.
fn rights_of<'a>(arguments: &ArgMatches<'a>) -> Result<Rights, Stop<'a>>
    ensures ok { IfOk result (AreRights (first_value (found_of arguments.now) (codes "rights"))) }
    ensures err { IfErr result (λ _. (rights : Allowed) →
        ¬ (AreRights (first_value (found_of arguments.now) (codes "rights")) rights)) }
    ensures reason { IfErr result (IsMistake (found_of arguments.now)) }
{
    let Some(text) = arguments.get_str("rights") else {
        return Ok(Rights::NONE);
    };
    let letters = text.as_bytes();
    if !are_letters(letters) {
        return Err(Stop::NoRights(text));
    }
    Ok(Rights {
        write: letters.contains(&b'w'),
        user: letters.contains(&b'u'),
        execute: letters.contains(&b'x'),
    })
}

/// Returns true if there are one or more of the letters of rights, each once, and nothing else.
#[tactic(auto, unfolding(crate::specs::Selections::are_letters))]
fn are_letters(letters: &[u8]) -> bool
    ensures { result ≡ are_letters letters.now }
{
    !letters.is_empty() && each_is_once(letters)
}

/// Returns true if each letter is one of rights, and stands once.
fn each_is_once(letters: &[u8]) -> bool
    ensures { result ≡ list_all (is_once letters.now) letters.now }
{
    letters.iter().all(|letter| is_once(letters, *letter))
}

/// Returns true if a letter is one of rights, and stands once among letters.
#[tactic(auto, unfolding(crate::specs::Selections::is_once))]
fn is_once(letters: &[u8], letter: u8) -> bool
    ensures { result ≡ is_once letters.now letter }
{
    b"rwxu".contains(&letter) && count_of(letters, letter) == 1
}

/// Returns how many of the letters are equal to one.
fn count_of(letters: &[u8], letter: u8) -> usize
    ensures { result ≡ count_by (λ other. nat_eq other letter) letters.now }
{
    letters.iter().filter(|other| **other == letter).count()
}
