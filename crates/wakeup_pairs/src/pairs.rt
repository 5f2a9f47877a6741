ghost use Rattle.std.specs.Prelude.{◌≡◌, OnOk, OnErr};
ghost use Rattle.wakeup_pairs.specs.Gathered.{and_seen, none_gathered};
ghost use Rattle.wakeup_pairs.specs.Pairs as spec;

use crate::wakeup_item::{Pair, Switch, WakeupItem};
use std::alloc::{AllocError, Global};
use std::collections::BTreeMap;
use std::marker::Model;
use trace_base::Common;

/// The pairs of what was seen so far, and the tasks that wait. Contracts see both.
///
/// Only tasks that wait and pairs take memory.
#[derive(Drop)]
pub struct Wakeups {
    // When each of the tasks that wait was first woken. A tree is let go in the time that it took to grow, where a hash
    // table would be gone through as a whole at each loss.
    waiting: BTreeMap<i32, u64>,
    pairs: Vec<Pair>,
}

impl Model for Wakeups {
    ghost use Rattle.std.specs.FinMap as map;
    ghost use Rattle.std.specs.Coded.{codes};
    ghost use Rattle.wakeup_pairs.specs.Gathered.{Gathered};
    ghost use Rattle.wakeup_pairs.specs.GatheredCode.{coded_gathered};

    ghost Value = { Gathered };

    ghost coded = { coded_gathered };

    ghost view = { λ w. record { waiting = map.from_entries w.waiting.entries; pairs = w.pairs.items } };
}

impl Wakeups {
    /// Before anything was seen. No memory is taken.
    pub fn new(alloc: Global) -> Wakeups
        ensures { result ≡ none_gathered }
    {
        Wakeups {
            waiting: BTreeMap::new(alloc),
            pairs: Vec::new(alloc),
        }
    }

    /// The pairs so far, in the order of their switches.
    pub fn pairs(&self) -> &[Pair]
        ensures { result.now ≡ self.now.pairs }
    {
        self.pairs.as_slice()
    }

    /// Takes in what is seen next. After `AllocError` nothing is changed.
    pub fn see(&mut self, seen: WakeupItem) -> Result<(), AllocError>
        ensures seen { OnOk result (self.new ≡ and_seen self.old seen) }
        ensures kept { OnErr result (self.new ≡ self.old) }
    {
        match seen {
            WakeupItem::Wakes(wake) => self.wake(wake.task, wake.time),
            WakeupItem::Switches(switch) => self.switch(switch),
            WakeupItem::Lost => {
                self.waiting.clear();
                Ok(())
            }
            WakeupItem::Other => Ok(()),
        }
    }

    // A task is woken. Where it waits already, its first time stays.
    fn wake(&mut self, task: i32, time: u64) -> Result<(), AllocError>
        ensures seen { OnOk result (self.new ≡ and_seen self.old (WakeupItem.Wakes (record { task = task; time = time }))) }
        ensures kept { OnErr result (self.new ≡ self.old) }
    {
        if self.waiting.contains_key(&task) {
            return Ok(());
        }
        self.waiting.insert(task, time)?;
        Ok(())
    }

    // A processor goes on to a task: where that waits it makes a pair, and waits no longer.
    fn switch(&mut self, switch: Switch) -> Result<(), AllocError>
        ensures seen { OnOk result (self.new ≡ and_seen self.old (WakeupItem.Switches switch)) }
        ensures kept { OnErr result (self.new ≡ self.old) }
    {
        let Some(woken) = self.waiting.get(&switch.task).copied() else {
            return Ok(());
        };
        self.pairs.push(pair_of(woken, switch))?;
        self.waiting.remove(&switch.task);
        Ok(())
    }
}

fn pair_of(woken: u64, switch: Switch) -> Pair
    ensures { result ≡ spec.pair_of woken switch }
{
    Pair {
        cpu: switch.cpu,
        woken,
        time: switch.time,
        common: Common {
            pid: switch.task,
            ..switch.common
        },
    }
}
