//! Operations in order, with room for as many as bytes can hold.
ghost use Rattle.std.specs.Prelude.{◌≡◌, [], ◌∷◌, ◌++◌, IfOk, OnOk, OnErr};

use crate::Op;
use nm_types::Memory;
use std::alloc::Global;
use std::marker::Model;

/// Operations, in order.
#[derive(Drop)]
pub struct Ops {
    items: Vec<Op>,
}

impl Model for Ops {
    ghost use Rattle.std.specs.Prelude.{List};
    ghost use Rattle.nm_args.specs.declared.op.Op.{Op as AnyOp};

    ghost Value = { List AnyOp };

    ghost view = { λ l. l.items.items };
}

impl Ops {
    /// No operations. They take no memory until one is added.
    pub fn new(alloc: Global) -> Ops
        ensures { result ≡ [] }
    {
        Ops {
            items: Vec::new(alloc),
        }
    }

    /// No operations, and room for so many.
    ///
    /// Memory where there is none for them.
    pub fn with_room(alloc: Global, room: usize) -> Result<Ops, Memory>
        ensures { IfOk result (λ ops. ops ≡ []) }
    {
        let mut items = Vec::new(alloc);
        items.reserve(room)?;
        Ok(Ops { items })
    }

    /// Adds an operation at the end. After want of memory the list is as it was.
    pub fn push(&mut self, op: Op) -> Result<(), Memory>
        ensures ok { OnOk result (self.new ≡ self.old ++ op ∷ []) }
        ensures err { OnErr result (self.new ≡ self.old) }
    {
        Ok(self.items.push(op)?)
    }

    /// The operations, in order.
    pub fn items(&self) -> &[Op]
        ensures { result.now ≡ self.now }
    {
        &self.items
    }
}
