ghost use Rattle.std.specs.Prelude.{◌≡◌, ◌++◌, [], ◌∷◌, List, not, length, slice_get, position, if◌then◌else◌, IfOk, OnOk, OnErr};
ghost use Rattle.std.specs.List.{list_any};
ghost use Rattle.std.specs.Option.{option_copied};
ghost use Rattle.format_parse.specs.declared.format.EventFormat.{EventFormat};
ghost use Rattle.format_parse.specs.Table.{has_id, has_name, IdsDiffer, TableLaws, with_option, with_formats, formats_in};
ghost use Rattle.format_parse.specs.Format.{format_of};

use crate::format::EventFormat;
use crate::parse::parse_format;
use indexmap::IndexMap;
use std::alloc::{AllocError, Global};
use std::marker::Model;
use trace_base::ByteText;

/// Formats without equal ids, in the order in which they were added.
///
/// Of a file the formats of ftrace's own events come first, under the system `ftrace`, then those of the other systems.
#[derive(Drop)]
pub struct FormatTable {
    by_id: IndexMap<u32, EventFormat>,
}

impl Model for FormatTable {
    ghost use Rattle.std.specs.Prelude.{◌==◌, ◌≡◌, List, map};
    ghost use Rattle.indexmap.specs.IndexMap.{keys, values};
    ghost use Rattle.format_parse.specs.declared.format.EventFormat.{EventFormat};
    ghost use Rattle.format_parse.specs.Table.{IdsDiffer};

    ghost Value = { List EventFormat };

    ghost view = { λ t. values t.by_id };

    ghost invariant = { λ t. (keys t.by_id ≡ map (λ f. f.id) (values t.by_id)) × IdsDiffer (values t.by_id) };
}

impl FormatTable {
    /// No formats; no memory is taken.
    pub fn new(alloc: Global) -> FormatTable
        ensures { result ≡ [] }
    {
        FormatTable {
            by_id: IndexMap::new(alloc),
        }
    }

    /// Appends a format and answers true. Answers false, and changes nothing, exactly where its id is there already.
    /// After `AllocError` the table is as before.
    pub fn add(&mut self, format: EventFormat) -> Result<bool, AllocError>
        ensures added { IfOk result (λ added. added ≡ not (list_any (has_id format.id) self.old)) }
        ensures formats { IfOk result (λ added. self.new ≡ (if added then self.old ++ format ∷ [] else self.old)) }
        ensures kept { OnErr result (self.new ≡ self.old) }
    {
        let id = format.id;
        if self.by_id.contains_key(&id) {
            return Ok(false);
        }
        self.by_id.insert(id, format)?;
        Ok(true)
    }

    /// The table with the formats that a system's texts spell after the others. Unread texts are passed over, and so are
    /// those whose ids are there already.
    pub fn with_texts(
        self,
        alloc: Global,
        system: &[u8],
        texts: &[ByteText],
    ) -> Result<FormatTable, AllocError>
        ensures { IfOk result (λ table. table ≡ with_formats self (formats_in system.now texts.now)) }
    {
        let mut table = self;
        for text in texts {
            table.put_text(alloc, system, text.as_bytes())?;
        }
        Ok(table)
    }

    /// Puts the format that the text spells, if it spells one and its id is not there.
    #[tactic(auto, using(crate::proofs::Tables::put_one, crate::proofs::Tables::put_none))]
    fn put_text(&mut self, alloc: Global, system: &[u8], text: &[u8]) -> Result<(), AllocError>
        ensures { OnOk result (self.new ≡ with_option self.old (format_of system.now text.now)) }
    {
        if let Some(format) = parse_format(alloc, system, text)? {
            self.add(format)?;
        }
        Ok(())
    }

    /// The place of the format with this id. None exactly where there is none.
    pub fn by_id(&self, id: u32) -> Option<usize>
        ensures place { result ≡ position (has_id id) self.now }
        ensures differ { IdsDiffer self.now }
    {
        self.by_id.get_index_of(&id)
    }

    /// The format at a place, counted from 0. None exactly past the last.
    pub fn get(&self, i: usize) -> Option<&EventFormat>
        ensures { option_copied result ≡ slice_get self.now i }
    {
        let (_, format) = self.by_id.get_index(i)?;
        Some(format)
    }

    /// How many formats there are.
    pub fn len(&self) -> usize
        ensures count { result ≡ length self.now }
        ensures differ { IdsDiffer self.now }
    {
        self.by_id.len()
    }

    /// The place of the first format with this name. None exactly where there is none.
    pub fn by_name(&self, name: &[u8]) -> Option<usize>
        ensures { result ≡ position (has_name name.now) self.now }
    {
        self.by_id
            .values()
            .position(|format| format.name.as_bytes() == name)
    }
}

/// Of formats with equal ids the first is found, and it does not matter in how many parts formats are put.
pub fn table_laws()
    ensures { TableLaws }
{}
