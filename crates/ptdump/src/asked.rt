//! What the options of a walk ask for.
ghost use Rattle.std.specs.Prelude.{◌≡◌, List, [], ℕ, Option, IfOk, IfErr, codes, map, not, option_map, unwrap_or};
ghost use Rattle.std.specs.List.{find, list_any};
ghost use Rattle.std.specs.Str.{bytes_eq};
ghost use Rattle.clap.specs.Matches.{first_value, found_of};
ghost use Rattle.ptdump.specs.Asked.{AreAsked, AreControls, IsAccess, IsBits, is_listed, setting_names, source_of, texts_of, usual_names};
ghost use Rattle.ptdump.specs.Reasons.{IsMistake, IsNoSetting};
ghost use Rattle.ptdump.specs.declared.stop.Stop.TheVariants.{NoAccess};
ghost use Rattle.ptdump_json.specs.Accesses.{access_name};
ghost use Rattle.ptdump_json.specs.declared.options.WalkOptions.{WalkOptions};
ghost use Rattle.x86_64_access.specs.declared.controls.Controls.{Controls};
ghost use Rattle.x86_64_access.specs.declared.request.Access.{Access as Asked};

use crate::flags::is_given;
use crate::numbers::{NumberOption, option_of};
use crate::stop::Stop;
use clap::ArgMatches;
use ptdump_engine::{ControlsSource, WalkOptions};
use x86_64_access::{Access, AccessKind, Controls};

/// The number of bits of physical addresses if none is given.
const PHYSICAL_BITS: u8 = 52;

/// Returns what the arguments of a walk ask for beside its words and its end.
///
/// # Errors
///
/// What is wrong with the words.
pub fn options_of<'a>(arguments: &ArgMatches<'a>) -> Result<WalkOptions, Stop<'a>>
    ensures ok { IfOk result (AreAsked (found_of arguments.now)) }
    ensures err { IfErr result (λ _. (options : WalkOptions) →
        ¬ (AreAsked (found_of arguments.now) options)) }
    ensures reason { IfErr result (IsMistake (found_of arguments.now)) }
{
    let access = access_of(arguments)?;
    let physical_bits = bits_of(arguments)?;
    let words = arguments.get_strs("controls");
    let controls = controls_of(words, physical_bits)?;
    Ok(WalkOptions {
        controls,
        source: source_of(words),
        explains: is_given(arguments, "explain"),
        access,
    })
}

/// Returns the access that is asked for, if one is.
fn access_of<'a>(arguments: &ArgMatches<'a>) -> Result<Option<Access>, Stop<'a>>
    ensures ok { IfOk result (IsAccess (first_value (found_of arguments.now) (codes "as"))) }
    ensures err { IfErr result (λ _. (access : Option Asked) →
        ¬ (IsAccess (first_value (found_of arguments.now) (codes "as")) access)) }
    ensures reason { IfErr result (IsMistake (found_of arguments.now)) }
{
    let Some(name) = arguments.get_str("as") else {
        return Ok(None);
    };
    let access = access_named(name)?;
    Ok(Some(access))
}

/// Returns the access with a name.
#[tactic(auto, using(crate::proofs::Names::same_name, crate::proofs::Names::no_access))]
fn access_named<'a>(name: &'a str) -> Result<Access, Stop<'a>>
    ensures ok { IfOk result (λ access. name.now ≡ access_name access) }
    ensures err { IfErr result (λ _. (access : Asked) → ¬ (name.now ≡ access_name access)) }
    ensures reason { IfErr result (λ stop. stop ≡ NoAccess name.entry) }
{
    if name == "user-read" {
        Ok(Access {
            kind: AccessKind::Read,
            user: true,
        })
    } else if name == "user-write" {
        Ok(Access {
            kind: AccessKind::Write,
            user: true,
        })
    } else if name == "user-fetch" {
        Ok(Access {
            kind: AccessKind::Fetch,
            user: true,
        })
    } else if name == "supervisor-read" {
        Ok(Access {
            kind: AccessKind::Read,
            user: false,
        })
    } else if name == "supervisor-write" {
        Ok(Access {
            kind: AccessKind::Write,
            user: false,
        })
    } else if name == "supervisor-fetch" {
        Ok(Access {
            kind: AccessKind::Fetch,
            user: false,
        })
    } else {
        Err(Stop::NoAccess(name))
    }
}

/// Reads the number of bits of physical addresses, if it is given.
///
/// # Errors
///
/// What is wrong with the number.
pub fn bits_of<'a>(arguments: &ArgMatches<'a>) -> Result<u8, Stop<'a>>
    ensures ok { IfOk result (IsBits (first_value (found_of arguments.now) (codes "maxphyaddr"))) }
    ensures err { IfErr result (λ _. (bits : ℕ) →
        ¬ (IsBits (first_value (found_of arguments.now) (codes "maxphyaddr")) bits)) }
    ensures reason { IfErr result (IsMistake (found_of arguments.now)) }
{
    match option_of(arguments, NumberOption::PhysicalBits)? {
        None => Ok(PHYSICAL_BITS),
        Some(bits @ 32..=52) => Ok(bits as u8),
        Some(bits) => Err(Stop::NoPhysicalBits(bits)),
    }
}

/// Returns the settings that words name, or the usual ones if there are no words, with a number of bits of physical addresses.
fn controls_of<'a>(words: Option<&[&'a str]>, physical_bits: u8) -> Result<Controls, Stop<'a>>
    ensures words { IfOk result (AreControls (unwrap_or (option_map texts_of words.entry) usual_names)) }
    ensures bits { IfOk result (λ controls. controls.physical_bits ≡ physical_bits) }
    ensures err { IfErr result (λ _. (controls : Controls) →
        ¬ (AreControls (unwrap_or (option_map texts_of words.entry) usual_names) controls)) }
    ensures reason { IfErr result (IsNoSetting (unwrap_or (option_map texts_of words.entry) [])) }
{
    match words {
        Some(words) => controls_named(words, physical_bits),
        None => Ok(Controls {
            write_protect: true,
            no_execute: true,
            smep: true,
            smap: true,
            ac: false,
            physical_bits,
            no_1gib_pages: false,
            global_reserved: false,
        }),
    }
}

/// Returns what says the settings: the words if there are any.
fn source_of(words: Option<&[&str]>) -> ControlsSource
    ensures { result ≡ source_of (option_map texts_of words.entry) }
{
    match words {
        Some(_) => ControlsSource::Given,
        None => ControlsSource::Assumed,
    }
}

/// Returns the settings that words name, with a number of bits of physical addresses.
fn controls_named<'a>(words: &[&'a str], physical_bits: u8) -> Result<Controls, Stop<'a>>
    ensures words { IfOk result (AreControls (map (λ word. word.now) words.now)) }
    ensures bits { IfOk result (λ controls. controls.physical_bits ≡ physical_bits) }
    ensures err { IfErr result (λ _. (controls : Controls) →
        ¬ (AreControls (map (λ word. word.now) words.now) controls)) }
    ensures reason { IfErr result (IsNoSetting (map (λ word. word.now) words.now)) }
{
    if let Some(word) = unknown_of(words) {
        return Err(Stop::NoSetting(word));
    }
    Ok(Controls {
        write_protect: is_listed(words, "wp"),
        no_execute: is_listed(words, "nxe"),
        smep: is_listed(words, "smep"),
        smap: is_listed(words, "smap"),
        ac: is_listed(words, "ac"),
        physical_bits,
        no_1gib_pages: false,
        global_reserved: false,
    })
}

/// Returns the first word that is no name of a setting and isn't `none`.
fn unknown_of<'a>(words: &[&'a str]) -> Option<&'a str>
    ensures { result ≡ find (λ word. not (is_listed setting_names word.now)) words.now }
{
    words.iter().copied().find(|word| !is_setting(word))
}

/// Returns true if a word is the name of a setting, or `none`.
fn is_setting(word: &str) -> bool
    ensures { result ≡ is_listed setting_names word.now }
{
    matches!(
        word.as_bytes(),
        b"wp" | b"nxe" | b"smep" | b"smap" | b"ac" | b"none"
    )
}

/// Returns true if a word is listed.
fn is_listed(words: &[&str], word: &str) -> bool
    ensures { result ≡ list_any (λ other. bytes_eq other.now word.now) words.now }
{
    words.iter().any(|other| *other == word)
}
