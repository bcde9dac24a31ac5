//! Numbers of a command line.
ghost use Rattle.std.specs.Prelude.{◌≡◌, ℕ, List, Option, IfOk, IfErr, map};
ghost use Rattle.std.specs.Option.{SomeIff};
ghost use Rattle.std.specs.Result.{OkIff};
ghost use Rattle.clap.specs.Matches.{first_value, found_of};
ghost use Rattle.ptdump.specs.Numbers.{IsNumeral, has_zero_in_front, number_of};
ghost use Rattle.ptdump.specs.Options.{IsOption, option_name};
ghost use Rattle.ptdump.specs.Reasons.{IsMistake, IsNoAddress};
ghost use Rattle.ptdump.specs.Requests.{TextsAreNumbers, IsUnreadArgument};
ghost use Rattle.ptdump.specs.declared.stop.Stop.TheVariants.{NoNumber};

use crate::stop::Stop;
use clap::ArgMatches;
use std::alloc::Global;
use text::parse_number;

/// An option that takes a number.
#[derive(Clone, Copy)]
pub enum NumberOption {
    /// `--cr3`.
    Cr3,
    /// `--levels`.
    Levels,
    /// `--base`.
    Base,
    /// `--cpu`.
    Cpu,
    /// `--from`.
    From,
    /// `--to`.
    To,
    /// `--maxphyaddr`.
    PhysicalBits,
    /// `--vmcoreinfo`.
    VmCoreInfo,
}

impl NumberOption {
    /// Returns its name, without dashes.
    pub fn name(self) -> &'static str
        ensures { result.now ≡ option_name self }
    {
        match self {
            NumberOption::Cr3 => "cr3",
            NumberOption::Levels => "levels",
            NumberOption::Base => "base",
            NumberOption::Cpu => "cpu",
            NumberOption::From => "from",
            NumberOption::To => "to",
            NumberOption::PhysicalBits => "maxphyaddr",
            NumberOption::VmCoreInfo => "vmcoreinfo",
        }
    }
}

/// Reads a number below 2^64: decimal digits without zeros in front, or `0x` and hexadecimal digits of either case.
///
/// Returns `None` if and only if the text isn't such a number. Digits behind a zero aren't, since QEMU prints registers as hexadecimal
/// digits without `0x`, with zeros in front.
pub fn read_number(text: &str) -> Option<u64>
    ensures { SomeIff result (IsNumeral text.now) (number_of text.now) }
{
    if has_zero_in_front(text) {
        None
    } else {
        parse_number(text)
    }
}

/// Returns true if a text begins with 0, goes on, and doesn't begin with `0x`.
#[tactic(auto, unfolding(crate::specs::Numbers::has_zero_in_front))]
pub fn has_zero_in_front(text: &str) -> bool
    ensures { result ≡ has_zero_in_front text.now }
{
    let bytes = text.as_bytes();
    bytes.len() > 1 && bytes.starts_with(b"0") && !bytes.starts_with(b"0x")
}

/// Reads addresses.
///
/// # Errors
///
/// `Failure::OutOfMemory` if memory allocation fails, `NoAddress` if an address isn't a number.
pub fn numbers_of<'a>(alloc: Global, texts: &[&'a str]) -> Result<Vec<u64>, Stop<'a>>
    ensures ok { IfOk result (λ numbers. TextsAreNumbers (map (λ text. text.now) texts.now) numbers.items) }
    ensures err { IfErr result (IsUnreadArgument (TextsAreNumbers (map (λ text. text.now) texts.now))) }
    ensures reason { IfErr result (IsNoAddress (map (λ text. text.now) texts.now)) }
{
    let mut numbers = Vec::new(alloc);
    for text in texts {
        let Some(number) = read_number(text) else {
            return Err(Stop::NoAddress(text));
        };
        numbers.push(number)?;
    }
    Ok(numbers)
}

/// Reads the number of an option, if it is given.
///
/// # Errors
///
/// `NoNumber` if the text isn't a number.
pub fn option_of<'a>(
    arguments: &ArgMatches<'a>,
    option: NumberOption,
) -> Result<Option<u64>, Stop<'a>>
    ensures ok { IfOk result (IsOption (first_value (found_of arguments.now) (option_name option))) }
    ensures err { IfErr result (λ _. (number : Option ℕ) →
        ¬ (IsOption (first_value (found_of arguments.now) (option_name option)) number)) }
    ensures reason { IfErr result (IsMistake (found_of arguments.now)) }
{
    match arguments.get_str(option.name()) {
        Some(text) => Ok(Some(number_of(option, text)?)),
        None => Ok(None),
    }
}

/// Reads the number that is the value of an option.
///
/// # Errors
///
/// `NoNumber` if the text isn't a number.
pub fn number_of<'a>(option: NumberOption, text: &'a str) -> Result<u64, Stop<'a>>
    ensures value { OkIff result (IsNumeral text.now) (number_of text.now) }
    ensures reason { IfErr result (λ stop. stop ≡ NoNumber option text.entry) }
{
    read_number(text).ok_or(Stop::NoNumber { option, text })
}
