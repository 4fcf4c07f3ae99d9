ghost use Rattle.std.specs.Prelude.{◌≡◌, length, IfSome, IsTrue};
ghost use Rattle.std.specs.Int.{w32, w64};
ghost use Rattle.permission_bits.specs.Modes.{is_modes};
ghost use Rattle.hdfs_values.specs.Who as who;
ghost use Rattle.block_tokens.specs.Reading as spec;
ghost use Rattle.block_tokens.specs.Reading.{Gives};

use crate::token::Body;
use hdfs_values::ids::{BlockId, Serial};
use hdfs_values::who::is_who;
use permission_bits::modes::Modes;

fn u64_at(bytes: &[u8]) -> Option<(u64, &[u8])>
    ensures { Gives (λ x. (x.0, x.1.now)) result (spec.number_at w64 bytes.now) }
{
    if bytes.len() < 8 {
        return None;
    }
    let (front, rest) = bytes.split_at(8);
    let number = u64::from_be_bytes([
        front[0], front[1], front[2], front[3], front[4], front[5], front[6], front[7],
    ]);
    Some((number, rest))
}

fn u32_at(bytes: &[u8]) -> Option<(u32, &[u8])>
    ensures { Gives (λ x. (x.0, x.1.now)) result (spec.number_at w32 bytes.now) }
{
    if bytes.len() < 4 {
        return None;
    }
    let (front, rest) = bytes.split_at(4);
    let number = u32::from_be_bytes([front[0], front[1], front[2], front[3]]);
    Some((number, rest))
}

#[tactic(auto, unfolding(crate::specs::Reading::modes_at))]
fn modes_at(bytes: &[u8]) -> Option<(Modes, &[u8])>
    ensures fields { Gives (λ x. (x.0.0, x.1.now)) result (spec.modes_at bytes.now) }
    ensures modes { IfSome result (λ x. IsTrue (is_modes x.0.0)) }
{
    let [modes, rest @ ..] = bytes else {
        return None;
    };
    let modes = Modes::of_bits(*modes)?;
    Some((modes, rest))
}

fn user_name(bytes: &[u8]) -> Option<&str>
    ensures name { Gives (λ x. x.now) result (who.who_of bytes.now) }
    ensures user { IfSome result (λ x. who.IsWho x.now) }
{
    if !is_who(bytes) {
        return None;
    }
    // the bytes of a name are ASCII
    Some(unsafe { str::from_utf8_unchecked(bytes) })
}

#[tactic(auto, unfolding(crate::specs::Reading::user_at))]
fn user_at(bytes: &[u8]) -> Option<(&str, &[u8])>
    ensures fields { Gives (λ x. (x.0.now, x.1.now)) result (spec.user_at bytes.now) }
    ensures user { IfSome result (λ x. who.IsWho x.0.now) }
    ensures code { IfSome result (λ x. length x.1.now ≡ 20) }
{
    let [size, rest @ ..] = bytes else {
        return None;
    };
    let size = *size as usize;
    if rest.len() != size + 20 {
        return None;
    }
    let (name, code) = rest.split_at(size);
    let name = user_name(name)?;
    Some((name, code))
}

fn code_of(bytes: &[u8]) -> [u8; 20]
    requires { length bytes.now ≡ 20 }
    ensures { result ≡ bytes.now }
{
    let mut code = [0u8; 20];
    code.copy_from_slice(bytes);
    code
}

#[tactic(auto, unfolding(crate::specs::Reading::version_1_at))]
fn version_1_at(bytes: &[u8]) -> Option<Body<'_>>
    ensures { result ≡ spec.version_1_at bytes.now }
{
    let (expiry, rest) = u64_at(bytes)?;
    let (serial, rest) = u32_at(rest)?;
    let (block, rest) = u64_at(rest)?;
    let (modes, rest) = modes_at(rest)?;
    let (user, code) = user_at(rest)?;
    Some(Body {
        expiry,
        serial: Serial::new(serial),
        block: BlockId::new(block),
        modes,
        user,
        code: code_of(code),
    })
}

#[tactic(auto, unfolding(crate::specs::Reading::parts_of))]
pub(crate) fn body_of(bytes: &[u8]) -> Option<Body<'_>>
    ensures { result ≡ spec.parts_of bytes.now }
{
    match bytes {
        [1, rest @ ..] => version_1_at(rest),
        _ => None,
    }
}
