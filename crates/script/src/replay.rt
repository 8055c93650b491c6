// A script on its way: the job, and what there is to print so far.
use crate::call::{Call, read_call};
use crate::choice::{Bottom, Choice, read_choice};
use crate::content::Content;
use crate::faults::{LineFault, Refused};
use crate::job::Job;
use crate::lines::{Line, Lines};
use crate::quote::quote;
use crate::show::{show_answer, show_line, show_unreadable};
use block::writer::LineBlock;
use carrier::traits::{Extractor, Injector};
use prefix::layer::Prefixed;
use prefix::prefixes::Prefix;
use queue::open_queue;
use slots::table::SlotTable;
use std::alloc::{AllocError, Global};

fn read_prefix(text: &[u8]) -> Result<Prefix, LineFault> {
    Ok(Prefix::new(text).map_err(Refused::from)?)
}

#[derive(Drop)]
pub(crate) struct Replay {
    heap: Global,
    job: Job,
    out: Vec<u8>,
}

impl Replay {
    pub(crate) fn new(heap: Global) -> Replay {
        Replay {
            heap,
            job: Job::new(),
            out: Vec::new(heap),
        }
    }

    pub(crate) fn into_shown(self) -> Vec<u8> {
        let Replay {
            heap: _,
            job: _,
            out,
        } = self;
        out
    }

    // Runs the lines up to one that chooses a carrier, on empty slots, and answers that line.
    pub(crate) fn run_slots<'a>(
        &mut self,
        lines: &mut Lines<'a>,
    ) -> Result<Option<Line<'a>>, AllocError> {
        self.run_calls(lines, &mut SlotTable::new())
    }

    // The same of lines after one that chooses a carrier, on that one: after a line that is refused or cannot be read, the carrier is empty slots.
    pub(crate) fn run_choice<'a>(
        &mut self,
        choice: Line<'a>,
        lines: &mut Lines<'a>,
    ) -> Result<Option<Line<'a>>, AllocError> {
        show_line(&mut self.out, choice)?;
        match self.run_chosen(choice, lines) {
            Ok(next) => Ok(next),
            Err(fault) => {
                self.show_fault(choice, fault)?;
                self.run_slots(lines)
            }
        }
    }

    fn run_chosen<'a>(
        &mut self,
        choice: Line<'a>,
        lines: &mut Lines<'a>,
    ) -> Result<Option<Line<'a>>, LineFault> {
        let Choice { layers, bottom } = read_choice(self.heap, choice.text)?;
        let prefixes: Vec<Prefix> = layers
            .iter()
            .map(|text| read_prefix(text))
            .try_collect(self.heap)?;
        // Each bottom is a type of its own.
        match bottom {
            // Slots alone: a pile of them would make room for its layers at each line.
            Bottom::Slots if prefixes.is_empty() => {
                show_answer(&mut self.out, Ok(()))?;
                Ok(self.run_slots(lines)?)
            }
            Bottom::Slots => Ok(self.run_pile(SlotTable::new(), &prefixes, lines)?),
            Bottom::Block(mut memory) => {
                let block = LineBlock::open(&mut memory.bytes, memory.len).map_err(Refused::from)?;
                Ok(self.run_pile(block, &prefixes, lines)?)
            }
            Bottom::Queue(mut memory) => {
                let queue = open_queue(&mut memory.bytes, memory.len).map_err(Refused::from)?;
                Ok(self.run_pile(queue, &prefixes, lines)?)
            }
        }
    }

    // Runs lines on a pile of up to two layers, the upper first, over the bottom. Each number of layers is a type of its own.
    fn run_pile<'a, C: Extractor + Injector + Content + Drop>(
        &mut self,
        bottom: C,
        prefixes: &[Prefix],
        lines: &mut Lines<'a>,
    ) -> Result<Option<Line<'a>>, AllocError> {
        show_answer(&mut self.out, Ok(()))?;
        match prefixes {
            [upper, lower, ..] => {
                let mut pile = Prefixed::new(Prefixed::new(bottom, *lower), *upper);
                self.run_calls(lines, &mut pile)
            }
            [layer] => self.run_calls(lines, &mut Prefixed::new(bottom, *layer)),
            [] => {
                let mut bottom = bottom;
                self.run_calls(lines, &mut bottom)
            }
        }
    }

    // Runs the lines up to one that chooses a carrier, and answers that line.
    fn run_calls<'a, C: Extractor + Injector + Content>(
        &mut self,
        lines: &mut Lines<'a>,
        carrier: &mut C,
    ) -> Result<Option<Line<'a>>, AllocError> {
        for line in lines {
            if line.is_idle() {
                continue;
            }
            if line.is_choice() {
                return Ok(Some(line));
            }
            self.run_line(line, carrier)?;
        }
        Ok(None)
    }

    fn run_line<C: Extractor + Injector + Content>(
        &mut self,
        line: Line<'_>,
        carrier: &mut C,
    ) -> Result<(), AllocError> {
        show_line(&mut self.out, line)?;
        match read_call(self.heap, line.text) {
            Ok(Call::Leg) => Ok(()),
            Ok(call) => self.run_call(call, carrier),
            Err(fault) => self.show_fault(line, fault),
        }
    }

    // Makes the call and shows what is there after it.
    fn run_call<C: Extractor + Injector + Content>(
        &mut self,
        call: Call,
        carrier: &mut C,
    ) -> Result<(), AllocError> {
        let answer = self.job.make(carrier, call);
        show_answer(&mut self.out, answer)?;
        self.job.show(&mut self.out)?;
        self.show_headers(carrier)?;
        if let Some(block) = carrier.content() {
            self.out.extend_from_slice(b"   block ")?;
            quote(&mut self.out, block)?;
            self.out.push(b'\n')?;
        }
        Ok(())
    }

    // Shows why a line was not run. Want of memory ends the replay.
    fn show_fault(&mut self, line: Line<'_>, fault: LineFault) -> Result<(), AllocError> {
        match fault {
            LineFault::Unreadable => show_unreadable(&mut self.out, line),
            LineFault::Refused(fault) => show_answer(&mut self.out, Err(fault)),
            LineFault::OutOfMemory(fault) => Err(fault),
        }
    }

    // Shows the headers of the carrier in its own order.
    fn show_headers<C: Extractor>(&mut self, carrier: &C) -> Result<(), AllocError> {
        for name in (0..carrier.key_count()).filter_map(|at| carrier.key_at(at)) {
            self.out.extend_from_slice(b"   header ")?;
            quote(&mut self.out, name)?;
            if let Some(value) = carrier.get(name) {
                self.out.push(b' ')?;
                quote(&mut self.out, value)?;
            }
            self.out.push(b'\n')?;
        }
        Ok(())
    }
}
