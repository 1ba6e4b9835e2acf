//! The fields of a message's head.
ghost use Rattle.std.specs.Prelude.{◌≡◌, ◌++◌, ◌∷◌, [], IfOk, OnOk, OnErr, find, count_by};
ghost use Rattle.std.specs.Option.{option_copied, option_map};
ghost use Rattle.pod_base.specs.Fields.{is_named};

use crate::list::List;
use crate::memory::{Mem, NoMemory};
use crate::shared_bytes::Bytes;
use std::alloc::Global;
use std::marker::Model;

/// One field of a message.
#[derive(Debug, Drop)]
pub struct Field {
    pub name: Bytes,
    pub value: Bytes,
}

impl Field {
    /// Whether that is the name of a message's field. Letters of ASCII are compared in any case
    /// (RFC 9110 section 5.1).
    pub fn is_named(&self, name: &str) -> bool
        ensures { result ≡ is_named name.now self.now }
    {
        self.name.as_slice().eq_ignore_ascii_case(name.as_bytes())
    }

    /// An equal field of a message, which shares the name and the value.
    pub fn copy(&self, alloc: Global) -> Mem<Field>
        ensures { IfOk result (λ copy. copy ≡ self.now) }
    {
        let name = self.name.copy(alloc)?;
        let value = self.value.copy(alloc)?;
        Ok(Field { name, value })
    }
}

/// The fields of a message, in order. Contracts see their list. Names are compared in any case.
#[derive(Debug, Drop)]
pub struct Fields {
    pub list: List<Field>,
}

impl Model for Fields {
    //! The fields of a message's head.
    ghost use Rattle.std.specs.Prelude.{List};
    ghost use Rattle.pod_base.specs.declared.field.Field.{Field};

    ghost Value = { List Field };

    ghost view = { λ f. f.list.items };
}

impl Fields {
    /// The fields of a message that has none.
    pub fn new(alloc: Global) -> Fields
        ensures { result ≡ [] }
    {
        Fields {
            list: List::new(alloc),
        }
    }

    /// Appends a field to those of a message. Out of memory, nothing changes.
    pub fn add(&mut self, alloc: Global, field: Field) -> Mem<()>
        ensures added { OnOk result (self.new ≡ self.old ++ field ∷ []) }
        ensures unchanged { OnErr result (self.new ≡ self.old) }
    {
        match self.list.push(alloc, field) {
            Ok(()) => Ok(()),
            Err(_field) => Err(NoMemory),
        }
    }

    /// The value of the first field of a message with that name.
    pub fn first(&self, name: &str) -> Option<&Bytes>
        ensures { option_copied result ≡ option_map (λ f. f.value) (find (is_named name.now) self.now) }
    {
        let field = self
            .list
            .as_slice()
            .iter()
            .find(|field| field.is_named(name))?;
        Some(&field.value)
    }

    /// How many fields of a message have that name.
    pub fn count(&self, name: &str) -> usize
        ensures { result ≡ count_by (is_named name.now) self.now }
    {
        self.list
            .as_slice()
            .iter()
            .filter(|field| field.is_named(name))
            .count()
    }

    /// Equal fields of a message, which share their names and values. It takes memory for the list
    /// alone.
    pub fn copy(&self, alloc: Global) -> Mem<Fields>
        ensures { IfOk result (λ copy. copy ≡ self.now) }
    {
        let mut copy = Fields::new(alloc);
        for field in self.list.as_slice() {
            let field = field.copy(alloc)?;
            copy.add(alloc, field)?;
        }
        Ok(copy)
    }
}
