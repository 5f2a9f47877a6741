ghost use Rattle.std.specs.Prelude.{◌≡◌, None, length, reverse, slice_get, IfOk, IfSome, IfNone};
ghost use Rattle.std.specs.Option.{option_map};
ghost use Rattle.std.specs.Map.{keys_of};
ghost use Rattle.noted_places.specs.Noted.{noted};
ghost use Rattle.symbols.specs.NameMap.{first_at, nearest, IsMapOf, IsNearest, NoneUpTo};
ghost use Rattle.symbols.specs.Maps.{AreMapsOf, maps_of, symbols_in, task_name, tasks_in, unnamed};

use crate::guide::Guide;
use crate::lines::Form;
use crate::read::names_in;
use crate::table::NameTable;
use noted_places::Places;
use std::alloc::{AllocError, Global};
use std::marker::Model;
use trace_base::ByteText;

/// The names of addresses, printk formats and tasks. Contracts see three finite maps.
#[derive(Drop)]
pub struct Symbols {
    symbols: NameTable,
    symbol_guide: Guide,
    printk: NameTable,
    tasks: NameTable,
    task_places: Places,
}

impl Model for Symbols {
    ghost use Rattle.std.specs.Prelude.{◌≡◌, length};
    ghost use Rattle.std.specs.Map.{keys_of};
    ghost use Rattle.noted_places.specs.Noted.{noted};
    ghost use Rattle.symbols.specs.Maps.{Maps};

    ghost Value = { Maps };

    ghost view = { λ s. record { symbols = s.symbols; printk = s.printk; tasks = s.tasks } };

    ghost invariant = { λ s. s.task_places ≡ noted (length s.task_places) (keys_of s.tasks) };
}

/// The symbols of kallsyms, and the guide to them.
fn guided(alloc: Global, kallsyms: ByteText) -> Result<(NameTable, Guide), AllocError>
    ensures { IfOk result (λ made. IsMapOf (symbols_in kallsyms) made.0) }
{
    let symbols = NameTable::build(alloc, names_in(alloc, Form::Kallsyms, kallsyms)?)?;
    let guide = symbols.guide(alloc)?;
    Ok((symbols, guide))
}

/// The tasks, of equal pids the last, and their places by pid.
fn placed(alloc: Global, cmdlines: ByteText) -> Result<(NameTable, Places), AllocError>
    ensures map { IfOk result (λ made. IsMapOf (reverse (tasks_in cmdlines)) made.0) }
    ensures places { IfOk result (λ made. made.1 ≡ noted (length made.1) (keys_of made.0)) }
{
    let mut found = names_in(alloc, Form::Tasks, cmdlines)?;
    found.reverse();
    let tasks = NameTable::build(alloc, found)?;
    let places = tasks.places(alloc)?;
    Ok((tasks, places))
}

impl Symbols {
    /// Reads the texts of kallsyms, of printk formats and of saved command lines, as a trace file carries them.
    ///
    /// Lines of another form are passed over. Of equal addresses the first line counts, of equal pids the last. The names stay
    /// where they stand in the texts: none is copied.
    #[tactic(auto, unfolding(crate::specs::Maps::maps_of))]
    pub fn read(
        alloc: Global,
        kallsyms: ByteText,
        printk: ByteText,
        cmdlines: ByteText,
    ) -> Result<Symbols, AllocError>
        ensures maps { IfOk result (AreMapsOf kallsyms printk cmdlines) }
        ensures exact { IfOk result (λ symbols. symbols ≡ maps_of kallsyms printk cmdlines) }
    {
        let (symbols, symbol_guide) = guided(alloc, kallsyms)?;
        let printk = NameTable::build(alloc, names_in(alloc, Form::Printk, printk)?)?;
        let (tasks, task_places) = placed(alloc, cmdlines)?;
        Ok(Symbols {
            symbols,
            symbol_guide,
            printk,
            tasks,
            task_places,
        })
    }

    /// The name of the symbol at the greatest address that is at most this one, and how many bytes it is below. None exactly
    /// where no address is at most this one.
    #[inline(always)]
    pub fn name_at(&self, address: u64) -> Option<(&[u8], u64)>
        ensures found { IfSome result (λ r. IsNearest self.now.symbols address r.0.now r.1) }
        ensures none { IfNone result (NoneUpTo address self.now.symbols) }
        ensures exact { option_map (λ r. (r.0.now, r.1)) result ≡ nearest address self.now.symbols }
    {
        self.symbols
            .nearest(self.symbol_guide.near(address), address)
    }

    /// The printk format of this address. None exactly where no line has it.
    pub fn printk_at(&self, address: u64) -> Option<&[u8]>
        ensures { option_map (λ text. text.now) result ≡ first_at address self.now.printk }
    {
        self.printk.name(address)
    }

    /// The name of the task: `<idle>` for 0, and `<...>` where no name was saved.
    pub fn comm_of(&self, pid: i32) -> &[u8]
        ensures { result.now ≡ task_name self.now.tasks pid }
    {
        match u64::try_from(pid) {
            Ok(0) => b"<idle>",
            Ok(pid) => match self.task(pid) {
                Some(name) => name,
                None => b"<...>",
            },
            Err(_) => b"<...>",
        }
    }

    /// Where the task may stand among those that have a name, by rising pid, with the idle task after them: another that shares
    /// its entry may stand there. None only where the task has no name.
    #[inline(always)]
    pub fn task_place(&self, pid: i32) -> Option<usize>
        ensures { IfNone result (task_name self.now.tasks pid ≡ unnamed) }
    {
        match u64::try_from(pid) {
            Ok(0) => Some(self.tasks.len()),
            Ok(pid) => match self.place(pid) {
                Some(place) => Some(place),
                None => None,
            },
            Err(_) => None,
        }
    }

    /// The place that was noted for a pid. None only where no name was saved of it.
    #[inline(always)]
    fn place(&self, pid: u64) -> Option<usize>
        ensures { IfNone result (first_at pid self.now.tasks ≡ None) }
    {
        let place = self.task_places.of(pid);
        if place < self.tasks.len() {
            Some(place)
        } else {
            None
        }
    }

    /// The name that was saved of a task. It is looked for first at the place that was noted for its pid.
    fn task(&self, pid: u64) -> Option<&[u8]>
        ensures { option_map (λ name. name.now) result ≡ first_at pid self.now.tasks }
    {
        match self.place(pid) {
            Some(place) => match self.tasks.name_at(place, pid) {
                Some(name) => Some(name),
                None => self.tasks.name(pid),
            },
            None => None,
        }
    }

    /// How many symbols there are.
    pub fn symbol_count(&self) -> usize
        ensures { result ≡ length self.now.symbols }
    {
        self.symbols.len()
    }

    /// How many printk formats there are.
    pub fn printk_count(&self) -> usize
        ensures { result ≡ length self.now.printk }
    {
        self.printk.len()
    }

    /// The symbol at this place by rising address, counted from 0. None exactly past the last.
    pub fn symbol(&self, i: usize) -> Option<(u64, &[u8])>
        ensures { option_map (λ r. (r.0, r.1.now)) result ≡ slice_get self.now.symbols i }
    {
        self.symbols.row(i)
    }

    /// The printk format at this place by rising address, counted from 0. None exactly past the last.
    pub fn printk(&self, i: usize) -> Option<(u64, &[u8])>
        ensures { option_map (λ r. (r.0, r.1.now)) result ≡ slice_get self.now.printk i }
    {
        self.printk.row(i)
    }

    /// How many tasks have a name.
    pub fn task_count(&self) -> usize
        ensures { result ≡ length self.now.tasks }
    {
        self.tasks.len()
    }

    /// The task at this place by rising pid, counted from 0. None exactly past the last.
    pub fn task_at(&self, i: usize) -> Option<(u64, &[u8])>
        ensures { option_map (λ r. (r.0, r.1.now)) result ≡ slice_get self.now.tasks i }
    {
        self.tasks.row(i)
    }
}
