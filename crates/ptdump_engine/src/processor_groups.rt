//! Processors in groups that have the same tables.
ghost use Rattle.std.specs.Prelude.{◌≡◌, ◌++◌, IfOk, OnOk};
ghost use Rattle.ptdump_engine.specs.Processors as specs;
ghost use Rattle.ptdump_engine.specs.private.ProcessorGroups as grouping;

use crate::processors::Processor;
use crate::request::Levels;
use std::alloc::{AllocError, Global};
use std::collections::HashMap;

/// Processors, in groups that have tables with the same root and number of levels.
#[derive(Drop)]
pub struct ProcessorGroups<'a> {
    /// All processors.
    processors: &'a [Processor],
    /// The numbers of those of a group, by the address of its root, and whether it has five levels.
    cpus: HashMap<(u64, bool), Vec<usize>>,
}

impl<'a> ProcessorGroups<'a> {
    /// Groups processors.
    ///
    /// # Errors
    ///
    /// `AllocError` if memory allocation fails.
    pub fn of(alloc: Global, processors: &'a [Processor]) -> Result<ProcessorGroups<'a>, AllocError>
        ensures processors { IfOk result (λ all. all.processors.now ≡ processors.now) }
        ensures groups { IfOk result grouping.AreGrouped }
    {
        let mut cpus = HashMap::new(alloc);
        for processor in processors {
            add(&mut cpus, processor)?;
        }
        Ok(ProcessorGroups { processors, cpus })
    }

    /// Returns the first processor of each group, in order.
    ///
    /// # Errors
    ///
    /// `AllocError` if memory allocation fails.
    pub fn firsts(&self, alloc: Global) -> Result<Vec<Processor>, AllocError>
        requires { grouping.AreGrouped self.now }
        ensures { IfOk result (λ firsts. firsts.items ≡ specs.firsts_of self.now.processors.now) }
    {
        let mut firsts = Vec::new(alloc);
        for processor in self.processors {
            if self.is_first(processor) {
                firsts.push(*processor)?;
            }
        }
        Ok(firsts)
    }

    /// Returns true if a processor has tables, and no processor before it has the same.
    fn is_first(&self, processor: &Processor) -> bool
        ensures { result ≡ grouping.is_first_in self.now processor.now }
    {
        processor.has_tables() && !self.is_later(processor)
    }

    /// Returns true if a processor before it has the same tables.
    fn is_later(&self, processor: &Processor) -> bool
        ensures { result ≡ grouping.is_later_in self.now processor.now }
    {
        let cpus = self.cpus_with(processor);
        cpus.iter().any(|cpu| *cpu < processor.cpu)
    }

    /// Returns the numbers of the processors with the tables of one, in order.
    pub fn cpus_with(&self, one: &Processor) -> &[usize]
        ensures { result.now ≡ grouping.cpus_in self.now one.now }
    {
        match self.cpus.get(&key(one)) {
            Some(cpus) => cpus,
            None => &[],
        }
    }
}

/// Returns the first processor with each root and number of levels.
///
/// # Errors
///
/// `AllocError` if memory allocation fails.
pub fn firsts_of(alloc: Global, processors: &[Processor]) -> Result<Vec<Processor>, AllocError>
    ensures { IfOk result (λ firsts. firsts.items ≡ specs.firsts_of processors.now) }
{
    let groups = ProcessorGroups::of(alloc, processors)?;
    groups.firsts(alloc)
}

/// Adds the number of a processor to its group, if it has tables.
fn add(cpus: &mut HashMap<(u64, bool), Vec<usize>>, processor: &Processor) -> Result<(), AllocError>
    ensures { OnOk result ((k : _) → grouping.cpus_at cpus.new k
        ≡ grouping.cpus_at cpus.old k ++ grouping.cpu_if k processor.now) }
{
    if processor.has_tables() {
        cpus.entry(key(processor))?
            .or_default()
            .push(processor.cpu)?;
    }
    Ok(())
}

/// Returns the address of a processor's root, and whether it has five levels.
fn key(processor: &Processor) -> (u64, bool)
    ensures { result ≡ grouping.group_key processor.now }
{
    let has_five = matches!(processor.start.levels, Levels::Five);
    (processor.start.root.start_address().as_u64(), has_five)
}
