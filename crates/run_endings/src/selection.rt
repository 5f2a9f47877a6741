// The processors that a command takes.

ghost use Rattle.std.specs.Prelude.{◌≡◌, ◌≤◌, ◌++◌, [], ◌∷◌, filter, length, IfOk, OnOk};
ghost use Rattle.subpage.specs.WithBytes.{with_bytes};
ghost use Rattle.run_endings.specs.Selection as spec;
ghost use Rattle.run_endings.specs.Selection.{selection_of};

use std::alloc::{AllocError, Global};
use subpage::drop_empty;
use trace_base::Part;
use word_values::CpuSet;

/// Which processors a command takes.
#[derive(Clone, Copy)]
pub enum Selection<'a> {
    Every,
    One(u32),
    Members(&'a CpuSet),
}

impl<'a> Selection<'a> {
    /// Those of a set, or all of them where there is none.
    pub fn set_or_all(cpus: &'a Option<CpuSet>) -> Selection<'a>
        ensures { selection_of result ≡ spec.set_or_all cpus.now }
    {
        match cpus {
            None => Selection::Every,
            Some(cpus) => Selection::Members(cpus),
        }
    }

    /// This one, or all of them where there is none.
    pub fn one_or_all(cpu: Option<u32>) -> Selection<'a>
        ensures { selection_of result ≡ spec.one_or_all cpu }
    {
        match cpu {
            None => Selection::Every,
            Some(cpu) => Selection::One(cpu),
        }
    }

    fn has(&self, cpu: u32) -> bool
        ensures { result ≡ spec.has (selection_of self.now) cpu }
    {
        match self {
            Selection::Every => true,
            Selection::One(one) => cpu == *one,
            Selection::Members(cpus) => cpus.has(cpu),
        }
    }

    /// The processors of these parts that it takes, with their numbers.
    pub fn chosen(&self, alloc: Global, parts: &[Part]) -> Result<Vec<(u32, Part)>, AllocError>
        requires { length parts.now ≤ 1024 }
        ensures chosen { IfOk result (λ taken. taken.items ≡ spec.chosen (selection_of self.now) parts.now) }
        ensures few { IfOk result (λ taken. length taken.items ≤ 1024) }
    {
        let mut taken = Vec::with_capacity(alloc, parts.len())?;
        let mut cpu = 0;
        for part in parts {
            self.push(&mut taken, (cpu, *part))?;
            cpu += 1;
        }
        Ok(taken)
    }

    /// Those of them whose part has bytes. A report has the same lines and the same end without the others, which would cost
    /// it a lane each.
    pub fn chosen_with_bytes(
        &self,
        alloc: Global,
        parts: &[Part],
    ) -> Result<Vec<(u32, Part)>, AllocError>
        requires { length parts.now ≤ 1024 }
        ensures chosen { IfOk result (λ taken. taken.items ≡ with_bytes (spec.chosen (selection_of self.now) parts.now)) }
        ensures few { IfOk result (λ taken. length taken.items ≤ 1024) }
    {
        let mut taken = self.chosen(alloc, parts)?;
        drop_empty(&mut taken);
        Ok(taken)
    }

    // Takes a processor, if it does.
    fn push(&self, taken: &mut Vec<(u32, Part)>, part: (u32, Part)) -> Result<(), AllocError>
        ensures { OnOk result (taken.new.items ≡ taken.old.items ++ filter (λ numbered. spec.has (selection_of self.now) numbered.0) (part ∷ [])) }
    {
        if self.has(part.0) {
            taken.push(part)?;
        }
        Ok(())
    }
}
