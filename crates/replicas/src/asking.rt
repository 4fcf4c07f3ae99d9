ghost use Rattle.std.specs.Prelude.{◌≡◌};
ghost use Rattle.replicas.specs.Asking as spec;

use node_calls::call::TokenCall;
use permission_bits::modes::Modes;
use replica_steps::held::Held;

/// Whether the call is one that a node makes in its own name: to send a copy. Takes no memory.
pub fn sends_copy(call: &TokenCall) -> bool
    ensures { result ≡ spec.sends_copy call.now }
{
    match call {
        TokenCall::SendCopy(_) => true,
        TokenCall::Begin(_) => false,
        TokenCall::Packet(_, _, _) => false,
        TokenCall::Finalize(_, _) => false,
        TokenCall::Read(_, _) => false,
        TokenCall::InitRecovery => false,
        TokenCall::UpdateReplica(_) => false,
        TokenCall::TakeCopy(_) => false,
    }
}

/// Which access a call needs: to read or to write (HADOOP-4359). Takes no memory.
pub fn mode_of(call: &TokenCall) -> Modes
    ensures { result ≡ spec.modes_of_call call.now }
{
    match call {
        TokenCall::Begin(_) => Modes::WRITE,
        TokenCall::Packet(_, _, _) => Modes::WRITE,
        TokenCall::Finalize(_, _) => Modes::WRITE,
        TokenCall::Read(_, _) => Modes::READ,
        TokenCall::InitRecovery => Modes::WRITE,
        TokenCall::UpdateReplica(_) => Modes::WRITE,
        TokenCall::SendCopy(_) => Modes::READ,
        TokenCall::TakeCopy(_) => Modes::WRITE,
    }
}

/// The offset that is noted down of a call: where a packet or a read begins, else 0. Takes no memory.
pub fn recorded_offset(call: &TokenCall) -> u64
    ensures { result ≡ spec.recorded_offset call.now }
{
    match call {
        TokenCall::Begin(_) => 0,
        TokenCall::Packet(offset, _, _) => *offset,
        TokenCall::Finalize(_, _) => 0,
        TokenCall::Read(offset, _) => *offset,
        TokenCall::InitRecovery => 0,
        TokenCall::UpdateReplica(_) => 0,
        TokenCall::SendCopy(_) => 0,
        TokenCall::TakeCopy(_) => 0,
    }
}

/// The length that is noted down of a call, in bytes: that of a packet or a read, 0 of what begins, else that of the replica behind it.
/// Takes no memory.
pub fn recorded_length(call: &TokenCall, held: &Held) -> u64
    ensures { result ≡ spec.recorded_length call.now held.now }
{
    match call {
        TokenCall::Begin(_) => 0,
        TokenCall::Packet(_, bytes, _) => bytes.len(),
        TokenCall::Finalize(count, _) => *count,
        TokenCall::Read(_, count) => *count,
        TokenCall::InitRecovery => 0,
        TokenCall::UpdateReplica(count) => *count,
        TokenCall::SendCopy(_) => held.length(),
        TokenCall::TakeCopy(bytes) => bytes.len(),
    }
}
