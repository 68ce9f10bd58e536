//! The roles of all keys in a table.

ghost use Rattle.std.specs.Prelude.{◌≡◌, ◌≤◌, ◌<◌, length, take, get_or, All, IfOk, vec_capacity};
ghost use Rattle.tn_discipline.specs.{Keys.role_of_key, RolesTable.{IsPlain, Agrees}};

use crate::keys::{Role, role_of};
use crate::termios::Settings;
use std::alloc::{AllocError, Global};
use std::marker::Model;

/// The number of keys: each byte is one.
const KEYS: usize = 256;

/// Settings, with the role of each key under them in a table, so that it is looked up and not
/// searched.
#[derive(Drop)]
pub struct Roles {
    settings: Settings,
    table: Vec<Role>,
}

impl Model for Roles {
    ghost use Rattle.std.specs.Prelude.{◌≤◌, vec_capacity};
    ghost use Rattle.tn_discipline.specs.{declared.termios.Settings.Settings, RolesTable.Agrees};

    ghost Value = { Settings };

    ghost view = { λ r. r.settings };

    ghost invariant = { λ r. Agrees r.settings r.table.items × (256 ≤ vec_capacity r.table) };
}

impl Roles {
    /// Makes the roles under these settings, with room for the table of 256 roles, which it takes
    /// once.
    ///
    /// # Errors
    ///
    /// - `AllocError`: there is no memory for the table.
    pub fn new(alloc: Global, settings: Settings) -> Result<Roles, AllocError>
        ensures { IfOk result (λ roles. roles ≡ settings) }
    {
        let mut table = Vec::with_capacity(alloc, KEYS)?;
        fill(&mut table, &settings);
        Ok(Roles { settings, table })
    }

    /// Returns the settings, as they were set last.
    pub fn settings(&self) -> Settings
        ensures { result ≡ self.now }
    {
        self.settings
    }

    /// Sets the settings, and the role of each key in its place. It takes no memory.
    pub fn set(&mut self, settings: Settings)
        ensures { self.new ≡ settings }
    {
        fill(&mut self.table, &settings);
        self.settings = settings;
    }

    /// Returns the role of a typed byte, as `role_of` gives it.
    pub fn role(&self, key: u8) -> Role
        ensures { result ≡ role_of_key self.now key }
    {
        self.table[key as usize]
    }

    /// Returns the number of leading keys that join the line as they are: each of them is ordinary,
    /// and mapped to itself. The key after them is another, or there is none.
    pub fn ordinary_front(&self, keys: &[u8]) -> usize
        ensures within { result ≤ length keys.now }
        ensures plain { All (IsPlain self.now) (take result keys.now) }
        ensures next { result < length keys.now → IsPlain self.now (get_or keys.now result 0) → ⊥ }
    {
        let mut count = 0;
        for key in keys {
            match self.table[*key as usize] {
                Role::Ordinary(byte) if byte == *key => count += 1,
                _ => return count,
            }
        }
        count
    }
}

// Puts the role of each key in its place.
fn fill(table: &mut Vec<Role>, settings: &Settings)
    requires { 256 ≤ vec_capacity table.old }
    ensures agrees { Agrees settings.now table.new.items }
    ensures capacity { vec_capacity table.new ≡ vec_capacity table.old }
{
    table.clear();
    for key in 0..KEYS {
        table.push_reserved(role_of(settings, key as u8));
    }
}
