//! A key, and a group of it.

/// Binds the slot of a key, and a group of it. The block after the first `else` runs if the key doesn't exist, that
/// after the second one if the group doesn't; one block is for both. It has to leave the function, or the loop.
///
/// It is not a function, because a function can't lend both the stream and the group.
macro_rules! let_group {
    ($slot:ident, $group:ident = $keys:ident, $key:expr, $name:expr, else $missing:block) => {
        let_group!($slot, $group = $keys, $key, $name, else $missing, else $missing);
    };
    ($slot:ident, $group:ident = $keys:ident, $key:expr, $name:expr, else $no_key:block, else $no_group:block) => {
        let Some($slot) = $keys.slots.get_mut($key) else $no_key;
        let Some($group) = $slot.groups.get_mut($name) else $no_group;
    };
}

pub(crate) use let_group;
