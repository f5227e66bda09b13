//! The modes of one file.

ghost use Rattle.std.specs.Prelude.{◌≡◌, ◌≢◌, List, map, IfOk, IfErr, IfSome, IfNone, Ok, Err, Some, None, length, option_copied, slice_get};
ghost use Rattle.std.specs.List.{AllWithin};
ghost use Rattle.toml.specs.View.{table_view};
ghost use Rattle.mode_values.specs.ModeFields.{mode_fields};
ghost use Rattle.mode_values.specs.ModeMatch.{Matches, mode_of, mode_named, channel_mode};
ghost use Rattle.mode_values.specs.declared.mode.Mode.{Mode};

use crate::lookup;
use crate::reading::listed_in;
use crate::refusal::{Key, ModeRefusal};
use as4_values::{PlainData, Seq, Text, UserHeader};
use mode_values::Mode;
use std::alloc::Global;
use std::marker::Model;
use toml::Table;

/// The most modes of a file.
pub const MAX_MODES: usize = 1024;

const _: () = prove!(MAX_MODES == 1024);

/// The processing modes of one endpoint, in order: at most 1,024, with different names, and no message belongs to two
/// of them. Contracts see the list.
#[derive(Drop)]
pub struct Modes {
    modes: Seq<Mode>,
}

impl Model for Modes {
    ghost use Rattle.std.specs.Prelude.{List};
    ghost use Rattle.pmodes.specs.ModeList.{AreModes};
    ghost use Rattle.mode_values.specs.declared.mode.Mode.{Mode};

    ghost Value = { List Mode };

    ghost view = { λ modes. modes.modes };

    ghost invariant = { λ modes. AreModes modes.modes };
}

impl Modes {
    ghost use Rattle.pmodes.specs.ModeFile.{modes_of_file, modes_of_table};
    ghost use Rattle.pmodes.specs.ModeList.{AreModes, list_refusal};

    /// Reads a modes file: TOML with an array of tables `mode`.
    pub fn read(alloc: Global, bytes: &[u8]) -> Result<Modes, ModeRefusal>
        ensures found { IfOk result (λ modes. modes_of_file bytes.now ≡ Ok (map mode_fields modes)) }
        ensures refused { IfErr result (λ e. e ≢ ModeRefusal.NoMemory → modes_of_file bytes.now ≡ Err e) }
    {
        match toml::table_from_slice(alloc, bytes) {
            Ok(table) => Modes::of_table(alloc, &table),
            Err(error) => {
                if error.is_memory() {
                    return Err(ModeRefusal::NoMemory);
                }
                Err(ModeRefusal::Toml)
            }
        }
    }

    #[tactic(auto, unfolding(crate::specs::ModeFile::modes_of_table))]
    fn of_table(alloc: Global, table: &Table) -> Result<Modes, ModeRefusal>
        ensures found { IfOk result (λ modes. modes_of_table (table_view table.now) ≡ Ok (map mode_fields modes)) }
        ensures refused { IfErr result (λ e. e ≢ ModeRefusal.NoMemory → modes_of_table (table_view table.now) ≡ Err e) }
    {
        match listed_in(alloc, table) {
            Ok(list) => Modes::of_list(alloc, list),
            Err(refusal) => Err(refusal),
        }
    }

    /// Takes a list, and checks it.
    pub fn of_list(alloc: Global, list: Seq<Mode>) -> Result<Modes, ModeRefusal>
        ensures found { IfOk result (λ modes. modes ≡ list) }
        ensures right { IfOk result (λ _. list_refusal (map mode_fields list) ≡ None) }
        ensures refused { IfErr result (λ e. e ≢ ModeRefusal.NoMemory → list_refusal (map mode_fields list) ≡ Some e) }
    {
        if list.items().len() > MAX_MODES {
            return Err(ModeRefusal::Range {
                mode: 0,
                key: Key::Mode,
            });
        }
        if let Some((_, mode)) = lookup::first_twice(list.items()) {
            return Err(twice(alloc, mode));
        }
        if let Some((first, mode)) = lookup::first_ambiguous(list.items()) {
            return Err(ambiguous(alloc, first, mode));
        }
        Ok(Modes { modes: list })
    }

    /// The mode that a message of this header belongs to.
    pub fn of(&self, header: &UserHeader) -> Option<&Mode>
        ensures value { option_copied result ≡ mode_of self.now header.now }
        ensures matched { IfSome result (λ mode. Matches mode.now header.now) }
        ensures none { IfNone result (AllWithin (λ mode. ¬ Matches mode header.now) self.now 0 (length self.now)) }
    {
        lookup::mode_of(self.modes.items(), header)
    }

    /// The mode of this name.
    pub fn named(&self, name: &Text) -> Option<&Mode>
        ensures { option_copied result ≡ mode_named self.now name.now }
    {
        lookup::mode_named(self.modes.items(), name)
    }

    /// The first mode that pulls from this message partition channel.
    pub fn channel(&self, mpc: &Text) -> Option<&Mode>
        ensures { option_copied result ≡ channel_mode self.now mpc.now }
    {
        lookup::channel_mode(self.modes.items(), mpc)
    }

    /// The mode at this place, from 0, in the order of the file or list.
    pub fn get(&self, place: u64) -> Option<&Mode>
        ensures value { option_copied result ≡ slice_get self.now place }
        ensures kept { AreModes self.now }
    {
        self.modes.items().get(place as usize)
    }
}

fn twice(alloc: Global, mode: &Mode) -> ModeRefusal
    ensures { result ≢ ModeRefusal.NoMemory → result ≡ ModeRefusal.Twice mode.now.name }
{
    match mode.name.try_clone(alloc) {
        Ok(name) => ModeRefusal::Twice { name },
        Err(_) => ModeRefusal::NoMemory,
    }
}

fn ambiguous(alloc: Global, first: &Mode, mode: &Mode) -> ModeRefusal
    ensures { result ≢ ModeRefusal.NoMemory → result ≡ ModeRefusal.Ambiguous first.now.name mode.now.name }
{
    match (first.name.try_clone(alloc), mode.name.try_clone(alloc)) {
        (Ok(a), Ok(b)) => ModeRefusal::Ambiguous { a, b },
        _ => ModeRefusal::NoMemory,
    }
}
