//! The layers of a chain: its own, or shared with copies of it.
//!
//! A copy of layers that aren't shared yet allocates memory for all of them, in a place that several owners can share. A copy of
//! that copy is one more owner, however long the lists of its layers are. So one copy serves all jobs that have the same chain.
//! If there are no layers, nothing is allocated.

ghost use Rattle.std.specs.Prelude.{◌≡◌, IfOk, IfErr};
ghost use Rattle.std.specs.Arc.{arc_value};
ghost use Rattle.resil_decor.specs.Layers.{layers_at};

use crate::error::DecorError;
use crate::layer::Layer;
use std::alloc::Global;
use std::marker::Model;
use std::sync::Arc;

// The place of layers.
#[derive(Debug, Drop)]
enum Place {
    // Nowhere: there are none.
    Nowhere,
    // With one owner.
    Own(Vec<Layer>),
    // With one or more owners, in any threads.
    Shared(Arc<Vec<Layer>, Global>),
}

// Layers, innermost first.
#[derive(Debug, Drop)]
pub(crate) struct Layers {
    place: Place,
}

impl Model for Layers {
    ghost use Rattle.std.specs.Prelude.{List};
    ghost use Rattle.resil_decor.specs.declared.layer.Layer.{Layer};
    ghost use Rattle.resil_decor.specs.Layers.{layers_at};

    ghost Value = { List Layer };

    ghost view = { λ l. layers_at l.place };
}

impl Layers {
    // The layers of a list, not shared.
    pub(crate) fn new(layers: Vec<Layer>) -> Layers
        ensures { result ≡ layers.items }
    {
        let place = if layers.is_empty() {
            Place::Nowhere
        } else {
            Place::Own(layers)
        };
        Layers { place }
    }

    // The layers themselves, innermost first.
    pub(crate) fn as_slice(&self) -> &[Layer]
        ensures { result.now ≡ self.now }
    {
        match &self.place {
            Place::Nowhere => &[],
            Place::Own(layers) => layers,
            Place::Shared(layers) => layers,
        }
    }

    // Equal layers that copies of them share: these very ones if they are shared already. Errors: `Memory`.
    pub(crate) fn copy(&self, alloc: Global) -> Result<Layers, DecorError>
        ensures copied { IfOk result (λ copy. copy ≡ self.now) }
        ensures refused { IfErr result (λ error. error ≡ DecorError.Memory) }
    {
        let place = match &self.place {
            Place::Nowhere => Place::Nowhere,
            Place::Own(layers) => Place::Shared(share_copy(alloc, layers)?),
            Place::Shared(layers) => Place::Shared(Arc::try_clone(layers)?),
        };
        Ok(Layers { place })
    }
}

// Equal layers that several owners can share. Errors: `Memory`. It is called for few copies, so this code stays out of the others.
#[cold]
fn share_copy(alloc: Global, layers: &[Layer]) -> Result<Arc<Vec<Layer>, Global>, DecorError>
    ensures shared { IfOk result (λ shared. (arc_value shared).items ≡ layers.now) }
    ensures refused { IfErr result (λ error. error ≡ DecorError.Memory) }
{
    match Arc::new(alloc, copy_layers(alloc, layers)?) {
        Ok(shared) => Ok(shared),
        Err(_) => Err(DecorError::Memory),
    }
}

// Copies of all layers. Errors: `Memory`.
fn copy_layers(alloc: Global, layers: &[Layer]) -> Result<Vec<Layer>, DecorError>
    ensures copied { IfOk result (λ copy. copy.items ≡ layers.now) }
    ensures refused { IfErr result (λ error. error ≡ DecorError.Memory) }
{
    let mut copies = Vec::with_capacity(alloc, layers.len())?;
    for layer in layers {
        copies.push_reserved(layer.copy(alloc)?);
    }
    Ok(copies)
}
