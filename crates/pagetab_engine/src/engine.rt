//! The run of the program.
ghost use Rattle.std.specs.Prelude.{◌≡◌, ◌<◌, ℕ, List, length, map, string_bytes, option_map, IfOk, IfErr, OnOk, OnErr};
ghost use Rattle.std.specs.Io.KnownBytes.{Appends};
ghost use Rattle.pagetab_engine.specs.Arguments.{count, levels_of};
ghost use Rattle.pagetab_engine.specs.Commands.{command_of};
ghost use Rattle.pagetab_engine.specs.Hierarchy.{HasCopy, IsHierarchy, KeepsHierarchy, ReachesAll};
ghost use Rattle.pagetab_engine.specs.Lines.{ForSome, IsInput, MayBeLeft, TracesBack};
ghost use Rattle.pagetab_engine.specs.Program.{Runs, levels_in};
ghost use Rattle.pagetab_engine.specs.private.RunParts.{AnswersCommand, AppendsFront, LoadsImage, Replies, RunsFrom, Served, CommandStops, StopsInImage, ending_of};
ghost use Rattle.pagetab_engine.specs.Reply.{reply_of};
ghost use Rattle.pagetab_engine.specs.declared.ending.Fault.TheVariants.{Output};

use crate::arguments::Arguments;
use crate::ending::{Ending, Fault};
use crate::hierarchy::Hierarchy;
use crate::lines::Lines;
use crate::reply::Reply;
use crate::statement::{Command, Statement};
use std::alloc::{AllocError, Global};
use std::io::{ErrorKind, Read, Write};
use x86_64::structures::paging::PageTableFlags;
use x86_64::{FiveLevels, FourLevels, LevelCount, LevelFiveFlags, NoLevelFive};
use x86_64_addr::level_count::Levels;

/// Runs the program on its arguments. Reads an image and commands from `reader`, and writes a reply to each command.
///
/// The arguments are one of these, for a memory of N places (a place is the index of a table in memory):
///
/// - `direct N`: each frame lies at the place of its number.
/// - `offset N OFF`: the memory is mapped into the virtual address space from the address OFF on.
/// - `recursive N R`: tables are reached through the root's entry for itself at the index R.
/// - `pair N R`: the mappers of `direct` and of `recursive` execute each call together. Each has a memory of its own
///   with the image, and the first one's image lacks the root's word R. A call that names the index R is not allowed,
///   even if it only reads. `walk`, `show` and `pool` read the memory and the free frames of the first mapper.
/// - `direct5 N`, `recursive5 N R`, `pair5 N R`: these with five levels of page tables and 57-bit addresses.
///
/// Each reply is a line, written by one call of `write` if the writer takes it whole. The replies and the ending are
/// those of the transcript, a function of the arguments and the input, unless memory allocation, a read or a write
/// fails. Then the replies written so far are the transcript's first ones, and complete, except for the one whose write
/// failed, of which only a first part is written.
///
/// The input is what the reader has left, if that is known, as for bytes in memory. For a file or a terminal it isn't
/// known, and the contract says that the run is that of some input.
pub fn run<R: Read, W: Write>(
    alloc: Global,
    words: &[String],
    reader: &mut R,
    writer: &mut W,
) -> Ending
    ensures { ForSome (IsInput (R.remaining reader.old)) (λ input.
        Runs (map string_bytes words.now) input (W.contents writer.old) (W.contents writer.new) result) }
{
    match serve(alloc, words, reader, writer) {
        Ok(()) => Ending::Done,
        Err(fault) => Ending::Stopped(fault),
    }
}

/// The implementation of [`run`].
fn serve<R: Read, W: Write>(
    alloc: Global,
    words: &[String],
    reader: &mut R,
    writer: &mut W,
) -> Result<(), Fault>
    ensures { ForSome (IsInput (R.remaining reader.old)) (λ input. Runs (map string_bytes words.now) input
        (W.contents writer.old) (W.contents writer.new) (ending_of result)) }
{
    let Some(arguments) = Arguments::parse(words) else {
        return Err(Fault::Usage);
    };
    let mut hierarchy = Hierarchy::new(alloc, arguments)?;
    if !hierarchy.is_reached() {
        return Err(Fault::Usage);
    }
    serve_levels(alloc, &arguments, &mut hierarchy, reader, writer)
}

/// The part of [`serve`] for an empty hierarchy of the arguments' mode: chooses the types for its number of levels.
fn serve_levels<R: Read, W: Write>(
    alloc: Global,
    arguments: &Arguments,
    hierarchy: &mut Hierarchy,
    reader: &mut R,
    writer: &mut W,
) -> Result<(), Fault>
    requires mode { hierarchy.old.mode ≡ arguments.now.mode }
    requires copy { HasCopy hierarchy.old }
    requires reached { ReachesAll hierarchy.old }
    ensures { ForSome (IsInput (R.remaining reader.old)) (λ input.
        RunsFrom (levels_in arguments.now) arguments.now.places hierarchy.old input
        (W.contents writer.old) (W.contents writer.new) (ending_of result)) }
{
    let places = arguments.places;
    match arguments.mode.levels() {
        Levels::Four => {
            serve_lines::<FourLevels, NoLevelFive, R, W>(alloc, places, hierarchy, reader, writer)
        }
        Levels::Five => {
            serve_lines::<FiveLevels, PageTableFlags, R, W>(
                alloc, places, hierarchy, reader, writer,
            )
        }
    }
}

/// Loads the image into a hierarchy, which has this number of places, and executes the commands that follow.
fn serve_lines<L: LevelCount, P5: LevelFiveFlags<L>, R: Read, W: Write>(
    alloc: Global,
    places: u64,
    hierarchy: &mut Hierarchy,
    reader: &mut R,
    writer: &mut W,
) -> Result<(), Fault>
    requires levels { count (levels_of hierarchy.old.mode) ≡ L.LEVELS }
    requires copy { HasCopy hierarchy.old }
    requires reached { ReachesAll hierarchy.old }
    ensures { ForSome (IsInput (R.remaining reader.old)) (λ input.
        RunsFrom L.LEVELS places hierarchy.old input
        (W.contents writer.old) (W.contents writer.new) (ending_of result)) }
{
    let mut lines = Lines::new(reader);
    let first = read_image::<L, P5, R>(&mut lines, hierarchy, places)?;
    if !hierarchy.end_image(alloc)? {
        return Err(Fault::InvalidHierarchy);
    }
    match first {
        Some(command) => answer_commands(alloc, &mut lines, hierarchy, places, command, writer),
        None => Ok(()),
    }
}

/// Loads the image, and returns the command that follows it, or `None` at the end of the input.
fn read_image<L: LevelCount, P5: LevelFiveFlags<L>, R: Read>(
    lines: &mut Lines<'_, R>,
    hierarchy: &mut Hierarchy,
    places: u64,
) -> Result<Option<Command<L, P5>>, Fault>
    requires copy { HasCopy hierarchy.old }
    requires reached { ReachesAll hierarchy.old }
    ensures read { IfOk result (λ first.
        TracesBack (MayBeLeft R.remaining lines.old) (MayBeLeft R.remaining lines.new) (λ all behind.
        LoadsImage L.LEVELS places all hierarchy.old (option_map (command_of L.LEVELS P5.bits) first) behind
        hierarchy.new)) }
    ensures stopped { IfErr result (λ fault. ForSome (MayBeLeft R.remaining lines.old) (λ all.
        StopsInImage L.LEVELS places all hierarchy.old fault)) }
    ensures copy { HasCopy hierarchy.new }
    ensures reached { ReachesAll hierarchy.new }
    ensures mode { hierarchy.new.mode ≡ hierarchy.old.mode }
{
    while let Some(statement) = lines.next_statement::<L, P5>(places)? {
        match statement {
            Statement::Image(line) => {
                if hierarchy.load(&line).is_err() {
                    return Err(lines.fault());
                }
            }
            Statement::Command(command) => return Ok(Some(command)),
        }
    }
    Ok(None)
}

/// Executes the first command and those that follow it.
fn answer_commands<L: LevelCount, P5: LevelFiveFlags<L>, R: Read, W: Write>(
    alloc: Global,
    lines: &mut Lines<'_, R>,
    hierarchy: &mut Hierarchy,
    places: u64,
    first: Command<L, P5>,
    writer: &mut W,
) -> Result<(), Fault>
    requires fits { IsHierarchy hierarchy.old }
    requires levels { count (levels_of hierarchy.old.mode) ≡ L.LEVELS }
    ensures { ForSome (MayBeLeft R.remaining lines.old) (λ behind.
        Served L.LEVELS places (command_of L.LEVELS P5.bits first) behind hierarchy.old
        (W.contents writer.old) (W.contents writer.new) (ending_of result)) }
{
    write_reply(alloc, hierarchy, first, writer)?;
    while let Some(statement) = lines.next_statement::<L, P5>(places)? {
        match statement {
            Statement::Command(command) => write_reply(alloc, hierarchy, command, writer)?,
            Statement::Image(_) => return Err(lines.fault()),
        }
    }
    Ok(())
}

/// Executes a command, and writes the reply as a line.
fn write_reply<L: LevelCount, P5: LevelFiveFlags<L>, W: Write>(
    alloc: Global,
    hierarchy: &mut Hierarchy,
    command: Command<L, P5>,
    writer: &mut W,
) -> Result<(), Fault>
    requires fits { IsHierarchy hierarchy.old }
    requires levels { count (levels_of hierarchy.old.mode) ≡ L.LEVELS }
    ensures answered { OnOk result (Replies (command_of L.LEVELS P5.bits command)
        hierarchy.old hierarchy.new (W.contents writer.old) (W.contents writer.new)) }
    ensures stopped { IfErr result (CommandStops (command_of L.LEVELS P5.bits command)
        hierarchy.old hierarchy.new (W.contents writer.old) (W.contents writer.new)) }
    ensures keeps { KeepsHierarchy hierarchy.old hierarchy.new }
{
    let reply = answer(alloc, hierarchy, command)?;
    let text = format!(in alloc; "{reply}\n")?;
    write_line(text.as_bytes(), writer)
}

/// Writes a line, by one call of `write` if the writer takes it whole. An interrupted call is repeated.
///
/// Requires that the line is not empty.
///
/// # Errors
///
/// `Fault::Output` if a write fails or takes no byte. Then a first part of the line is written, but not all of it.
fn write_line<W: Write>(line: &[u8], writer: &mut W) -> Result<(), Fault>
    requires { 0 < length line.now }
    ensures whole { OnOk result (Appends (W.contents writer.old) (W.contents writer.new) line.now) }
    ensures cut { IfErr result (λ fault. (fault ≡ Output)
        × AppendsFront (W.contents writer.old) (W.contents writer.new) line.now) }
{
    let mut rest = line;
    for _ in 0..u64::MAX {
        match writer.write(rest) {
            Ok(0) => return Err(Fault::Output),
            Ok(count) if count == rest.len() => return Ok(()),
            Ok(count) => rest = &rest[count..],
            Err(error) => {
                if error.kind() != ErrorKind::Interrupted {
                    return Err(Fault::Output);
                }
            }
        }
    }
    Err(Fault::Output)
}

/// Executes a command, and returns the reply.
///
/// # Errors
///
/// `AllocError` if memory allocation fails. Then nothing changes.
fn answer<L: LevelCount, P5: LevelFiveFlags<L>>(
    alloc: Global,
    hierarchy: &mut Hierarchy,
    command: Command<L, P5>,
) -> Result<Reply<L>, AllocError>
    requires fits { IsHierarchy hierarchy.old }
    requires levels { count (levels_of hierarchy.old.mode) ≡ L.LEVELS }
    ensures answers { IfOk result (λ reply.
        AnswersCommand (command_of L.LEVELS P5.bits command) hierarchy.old (reply_of reply) hierarchy.new) }
    ensures unchanged { OnErr result (hierarchy.new ≡ hierarchy.old) }
{
    Ok(match command {
        Command::Call(call) => Reply::Answered(hierarchy.answer_call(alloc, call)?),
        Command::Walk(address) => Reply::Arrival(hierarchy.frames().walk(address)),
        Command::Show(slot) => Reply::Word(hierarchy.frames().word(slot)),
        Command::Pool => Reply::Pool(hierarchy.frames().free_frames(alloc)?),
    })
}
