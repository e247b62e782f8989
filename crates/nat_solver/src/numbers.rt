ghost use Rattle.std.specs.Prelude.{◌≡◌, ◌<◌, None, Some, IfOk, length, replicate, slice_set};
ghost use Rattle.nat_solver.specs.Number.{number_at};

use std::alloc::{AllocError, Global};
use std::marker::Model;
use tlb_memory::NoMemory;

/// The numbers of variables, each set or not.
#[derive(Drop)]
pub struct Env {
    slots: Vec<Option<u32>>,
}

impl Model for Env {
    ghost use Rattle.std.specs.Prelude.{List, Option, ℕ};
    ghost use Rattle.std.specs.Coded.{coded_list, coded_option, coded_ℕ};

    ghost Value = { List (Option ℕ) };

    ghost coded = { coded_list (coded_option coded_ℕ) };

    ghost view = { λ env. env.slots.items };
}

impl Env {
    /// Makes room for the variables 0 to `n` − 1, none of them set.
    pub fn new(alloc: Global, n: u32) -> Result<Env, NoMemory>
        ensures { IfOk result (λ env. env ≡ replicate n None) }
    {
        let slots = vec![in alloc; None; n as usize]?;
        Ok(Env { slots })
    }

    /// The number of the variable `v`, if it is set.
    pub fn get(&self, v: u32) -> Option<u32>
        ensures { result ≡ number_at self.now v }
    {
        match self.slots.get(v as usize) {
            Some(slot) => *slot,
            None => None,
        }
    }

    pub fn set(&mut self, v: u32, x: u32)
        requires { v < length self.old }
        ensures { self.new ≡ slice_set self.old v (Some x) }
    {
        self.slots[v as usize] = Some(x);
    }

    /// How many variables there is room for.
    pub fn len(&self) -> usize
        ensures { result ≡ length self.now }
    {
        self.slots.len()
    }

    /// The same numbers, to be set apart from these.
    pub fn copy(&self, alloc: Global) -> Result<Env, NoMemory>
        ensures { IfOk result (λ copied. copied ≡ self.now) }
    {
        let mut slots = Vec::new(alloc);
        for slot in &self.slots {
            slots.push(*slot).map_err(AllocError::from)?;
        }
        Ok(Env { slots })
    }
}
