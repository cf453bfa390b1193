//! A group of a key, changed in place.
ghost use Rattle.std.specs.Prelude.{◌≡◌, IfOk, IfErr, OnErr, None};
ghost use Rattle.xs_keys.specs.Terms.{get};
ghost use Rattle.xs_keys.specs.ContentAfter.{group_in};
ghost use Rattle.xs_keys.specs.GroupChange.{no_group, IsChangedBy};

use crate::keys::Keys;
use crate::let_group::let_group;
use xs_bytes::Bytes;
use xs_group::Group;
use xs_resp::Fault;
use xs_stream::Stream;

/// Changes a group of a key, and counts its bytes again. The fault says what is missing.
pub fn change_group<T, F: FnOnce(&mut Group, &Stream) -> T + Drop>(
    keys: &mut Keys,
    key: &Bytes,
    name: &Bytes,
    change: F,
) -> Result<T, Fault>
    requires { F.IsAlwaysCallable change }
    ensures missing { OnErr result (group_in (get keys.old key.now) name.now ≡ None) }
    ensures fault { IfErr result (λ fault. fault ≡ no_group (get keys.old key.now)) }
    ensures err { OnErr result (keys.new ≡ keys.old) }
    ensures ok { IfOk result (λ outcome. IsChangedBy F.FnOnce change keys.old key.now name.now outcome keys.new) }
{
    let_group!(
        slot, group = keys, key, name,
        else { return Err(Fault::NoKey) },
        else { return Err(Fault::NoGroup) }
    );
    let before = group.room();
    let outcome = change(group, &slot.stream);
    keys.account.change(before, group.room());
    Ok(outcome)
}
