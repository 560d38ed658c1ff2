//! The recent settings, by their load files.
ghost use Rattle.std.specs.Prelude.{◌≡◌, ◌∷◌, [], None, take, OnOk, IfOk};
ghost use Rattle.std.specs.Map.{lookup};
ghost use Rattle.lru.specs.LruCache.{promoted};
ghost use Rattle.tune_search.specs.Cache.{cache_view, same_text};

use crate::fought::Fought;
use lru::LruCache;
use std::alloc::{AllocError, AllocFailed, Global};
use std::marker::Model;
use std::num::NonZeroUsize;

// A bounded map from the load file of a warrior to the fought setting that makes it. With capacity
// 0 it stays empty, although `settings` could hold one.
#[derive(Drop)]
pub(crate) struct Cache {
    settings: LruCache<Vec<u8>, Fought>,
    capacity: u32,
}

impl Model for Cache {
    ghost use Rattle.std.specs.Prelude.{map, ◌<◌, ◌≡◌, ◌⊎◌, []};
    ghost use Rattle.tune_search.specs.Cache.{CacheView, cache_view};

    ghost Value = { CacheView };

    ghost view = { λ c. cache_view (map (λ e. (e.0.items, e.1)) c.settings.entries) c.capacity };

    ghost invariant = { λ c. (0 < c.settings.cap) × (((c.capacity ≡ 0) × (c.settings.entries ≡ [])) ⊎ (c.capacity ≡ c.settings.cap)) };
}

impl Cache {
    // Makes an empty cache for at most `capacity` settings. Reserves no room for them.
    pub(crate) fn with_capacity(alloc: Global, capacity: u32) -> Result<Cache, AllocError>
        ensures { IfOk result (λ c. c ≡ cache_view [] capacity) }
    {
        let most = NonZeroUsize::new(capacity as usize).unwrap_or(NonZeroUsize::MIN);
        let settings = LruCache::sparse(alloc, most)?;
        Ok(Cache { settings, capacity })
    }

    // Returns the setting under a load file, and makes it the last used.
    pub(crate) fn recall(&mut self, text: &[u8]) -> Option<Fought>
        ensures value { result ≡ lookup (same_text text.now) self.old.known }
        ensures known { self.new ≡ cache_view (promoted (same_text text.now) self.old.known) self.old.capacity }
    {
        if !self.settings.promote(text) {
            return None;
        }
        let Some((_, setting)) = self.settings.peek_mru() else {
            return None;
        };
        Some(*setting)
    }

    // Puts `setting` under `text`, a load file that the cache does not have. If the cache is full,
    // forgets the setting used least recently.
    pub(crate) fn remember(
        &mut self,
        text: Vec<u8>,
        setting: Fought,
    ) -> Result<(), AllocFailed<(Vec<u8>, Fought)>>
        requires { lookup (same_text text.items) self.old.known ≡ None }
        ensures { OnOk result (self.new ≡ cache_view (take self.old.capacity ((text.items, setting) ∷ self.old.known)) self.old.capacity) }
    {
        if self.capacity == 0 {
            return Ok(());
        }
        self.settings.put(text, setting)?;
        Ok(())
    }
}
