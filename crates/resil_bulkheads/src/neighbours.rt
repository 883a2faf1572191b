//! The bulkheads of a service, from a text.

ghost use Rattle.std.specs.Prelude.{◌≡◌, [], ◌∷◌, ◌++◌, map, Some, None, IfOk, IfSome, IfNone, OnOk};
ghost use Rattle.std.specs.Duration.{as_nanos};
ghost use Rattle.std.specs.List.{AllZip};
ghost use Rattle.toml.specs.View.{table_view};
ghost use Rattle.resil_registry.specs.Registry.{instance_id};
ghost use Rattle.resil_bulkheads.specs.Bulkheads.{bulkhead_of};
ghost use Rattle.resil_bulkheads.specs.Neighbours.{AreSaid, IsBulkheadSaid, IsWaitSaid, AddsSaid, AddsWait, wait_at};

use crate::registry::BulkheadRegistry;
use resil_bulkhead::Bulkhead;
use resil_heads::HeadError;
use resil_heads::bulkheads::{
    Place, TextError, parse_bulkhead_table, read_configurations, read_tables, read_text,
    registry_error,
};
use std::alloc::Global;
use std::time::Duration;
use toml::Table;

/// The bulkheads of a service's dependencies by name, and how long a call waits for a permit of each.
///
/// ```
/// let neighbours = Neighbours::from_toml(alloc, text)?;
/// if let Some((prices, wait)) = neighbours.find("prices") {
///     println!(rt; "{} calls at once, after {wait:?}", prices.max())?;
/// }
/// ```
///
/// In a whole program: crates/resil_guide/src/service.rt.
#[derive(Drop)]
pub struct Neighbours {
    /// The bulkheads.
    pub registry: BulkheadRegistry,
    waits: Vec<Duration>,
}

impl Neighbours {
    /// Makes the bulkheads that a text names: `[permits]` has configurations, each a name and a number of permits from
    /// 0 to 65,535, besides `default`, which is 25; each `[[bulkhead]]` has a `name`, and may have a `config` and a
    /// `wait`, the longest wait for a permit in milliseconds.
    ///
    /// # Errors
    ///
    /// The first in this order, each with its place: `BadToml` with its line; `UnknownKey` of the
    /// whole text; of `permits` `BadValue`, `BadName`, `ReservedName`; `BadValue` if `bulkhead`
    /// isn't an array of tables; then for each bulkhead in turn `UnknownKey`, `MissingKey`,
    /// `BadValue`, `SameName`, `BadName`, `NoSuchConfig`. `Memory` may come at any step.
    ///
    /// ```
    /// let neighbours = Neighbours::from_toml(alloc, "[[bulkhead]]\nname = \"prices\"\nwait = 50")?;
    /// ```
    pub fn from_toml(alloc: Global, text: &str) -> Result<Neighbours, TextError>
        ensures { IfOk result (λ neighbours. AreSaid text.now neighbours.registry.bulkheads neighbours.waits.items) }
    {
        let table = read_text(alloc, text)?;
        let names = read_configurations(alloc, &table)?;
        let tables = read_tables(alloc, &table)?;
        let mut neighbours = Neighbours {
            registry: BulkheadRegistry::of(alloc, names),
            waits: Vec::new(alloc),
        };
        neighbours.add_all(alloc, &tables)?;
        Ok(neighbours)
    }

    /// Returns the bulkhead with that name, if there is one, and the longest wait for a permit of it.
    pub fn find(&self, name: &str) -> Option<(&Bulkhead, Duration)>
        ensures none { IfNone result (bulkhead_of self.now.registry name.now ≡ None) }
        ensures some { IfSome result (λ found. bulkhead_of self.now.registry name.now ≡ Some found.0.now) }
        ensures wait { IfSome result (λ found. as_nanos found.1 ≡ wait_at self.now.waits.items (instance_id self.now.registry.lists name.now)) }
    {
        let bulkhead = self.registry.find(name)?;
        Some((bulkhead, self.wait_of(name)))
    }

    // The longest wait for a permit of the bulkhead with that name.
    fn wait_of(&self, name: &str) -> Duration
        ensures { as_nanos result ≡ wait_at self.now.waits.items (instance_id self.now.registry.lists name.now) }
    {
        let Some(id) = self.registry.id(name) else {
            return Duration::ZERO;
        };
        match self.waits.get(id) {
            Some(wait) => *wait,
            None => Duration::ZERO,
        }
    }

    // Adds the bulkheads of these tables. Errors: those of the first table that is refused, with its number.
    fn add_all(&mut self, alloc: Global, tables: &[&Table]) -> Result<(), TextError>
        requires bulkheads { self.old.registry.bulkheads ≡ [] }
        requires waits { self.old.waits.items ≡ [] }
        ensures each { OnOk result (AllZip (IsBulkheadSaid self.old.registry.lists) (map (λ table. table_view table.now) tables.now) self.new.registry.bulkheads) }
        ensures each_wait { OnOk result (AllZip IsWaitSaid (map (λ table. table_view table.now) tables.now) self.new.waits.items) }
    {
        let mut number: usize = 0;
        for keys in tables {
            number = number.saturating_add(1);
            self.add_at(alloc, number, keys)?;
        }
        Ok(())
    }

    // Adds the bulkhead of the table with this number. Errors: those of the table, with its place.
    fn add_at(&mut self, alloc: Global, number: usize, keys: &Table) -> Result<(), TextError>
        ensures configurations { OnOk result (self.new.registry.lists.configurations ≡ self.old.registry.lists.configurations) }
        ensures bulkhead { OnOk result (AddsSaid self.old.registry (table_view keys.now) self.new.registry) }
        ensures wait { OnOk result (AddsWait self.old.waits.items (table_view keys.now) self.new.waits.items) }
    {
        match self.add(alloc, keys) {
            Ok(()) => Ok(()),
            Err(why) => Err(TextError {
                place: Place::Bulkhead(number),
                why,
            }),
        }
    }

    // Adds the bulkhead of a table. Errors: `UnknownKey`, `MissingKey`, `BadValue`, `SameName`,
    // `BadName`, `NoSuchConfig`, `Memory`.
    fn add(&mut self, alloc: Global, keys: &Table) -> Result<(), HeadError>
        ensures configurations { OnOk result (self.new.registry.lists.configurations ≡ self.old.registry.lists.configurations) }
        ensures bulkhead { OnOk result (AddsSaid self.old.registry (table_view keys.now) self.new.registry) }
        ensures wait { OnOk result (AddsWait self.old.waits.items (table_view keys.now) self.new.waits.items) }
    {
        let said = parse_bulkhead_table(keys)?;
        let Neighbours { registry, waits } = self;
        if let Some(id) = registry.id(said.name.as_str()) {
            return Err(HeadError::SameName(id.saturating_add(1)));
        }
        match registry.bulkhead_with(alloc, said.name.as_str(), said.config.as_str()) {
            Ok(_bulkhead) => match waits.push(Duration::from_millis(said.wait)) {
                Ok(()) => Ok(()),
                Err(_) => Err(HeadError::Memory),
            },
            Err(why) => Err(registry_error(why)),
        }
    }
}
