ghost use Rattle.std.specs.Prelude.{◌≡◌, ◌≤◌, ◌<◌, ◌+◌, ◌++◌, ◌^◌, ℕ, List, length, take, vec_len, is_some, IfOk, OnOk, IfErr, IsErrOf};
ghost use Rattle.std.specs.Io.KnownBytes.{Appends, Consumes, IsAtEnd};
ghost use Rattle.lz_base.specs.Causes.{HasCause};
ghost use Rattle.lz_base.specs.Outside.{Stands};
ghost use Rattle.lz_base.specs.Transfer.{CausesRead, StandsLonger};

use crate::{Failed, Files, Partial, ReadEnd, Sink};
use std::alloc::Global;

/// How many bytes one call reads at most.
const PIECE: usize = 65536;

// Reads a piece to the end of `bytes`, and says how long it is: none only at the end.
fn read_piece<F: Files>(
    files: &mut F,
    bytes: &mut Vec<u8>,
    piece: &mut [u8],
) -> Result<usize, ReadEnd>
    requires { 0 < length piece.old }
    ensures grows { IfOk result (λ n. (n ≤ length piece.old) × (vec_len bytes.new ≡ vec_len bytes.old + n)) }
    ensures piece { IfOk result (λ n. (more : List ℕ) × (bytes.new.items ≡ bytes.old.items ++ more) × Consumes (F.rest files.old) (F.rest files.new) more × (n ≡ length more)) }
    ensures end { IfOk result (λ n. n ≡ 0 → IsAtEnd (F.rest files.new)) }
    ensures kept { F.told files.new ≡ F.told files.old }
    ensures cause { CausesRead (F.faults files.old) (F.faults files.new) result }
    ensures later { F.faults files.old ≤ F.faults files.new }
    ensures not_long { IsErrOf result ReadEnd.TooLong → ⊥ }
{
    let count = files.read(piece)?;
    bytes.extend_from_slice(&piece[..count])?;
    Ok(count)
}

// Reads to the end, and at most `most` bytes.
fn read_up_to<F: Files>(alloc: Global, files: &mut F, most: usize) -> Result<Vec<u8>, ReadEnd>
    ensures within { IfOk result (λ v. vec_len v ≤ most) }
    ensures front { IfOk result (λ v. Consumes (F.rest files.old) (F.rest files.new) v.items) }
    ensures end { IfOk result (λ v. vec_len v < most → IsAtEnd (F.rest files.new)) }
    ensures kept { F.told files.new ≡ F.told files.old }
    ensures cause { CausesRead (F.faults files.old) (F.faults files.new) result }
    ensures later { F.faults files.old ≤ F.faults files.new }
    ensures not_long { IsErrOf result ReadEnd.TooLong → ⊥ }
{
    let mut piece = [0u8; PIECE];
    let mut bytes = Vec::new(alloc);
    while bytes.len() < most {
        let room = (most - bytes.len()).min(PIECE);
        if read_piece(files, &mut bytes, &mut piece[..room])? == 0 {
            break;
        }
    }
    Ok(bytes)
}

/// Opens the named file and reads it to its end, but no more than `limit + 1` bytes, so that it ends on endless
/// files too. Ok gives all bytes, at most `limit`. `Fault` comes only where opening it or a read failed, and always
/// then; `TooLong` where the file has more than `limit` bytes. A failed read is never taken for the end.
pub fn read_file<F: Files>(
    alloc: Global,
    files: &mut F,
    name: &str,
    limit: u64,
) -> Result<Vec<u8>, ReadEnd>
    requires { limit ≤ 2 ^ 28 }
    ensures bytes { IfOk result (λ v. Stands (F.told files.old) name.now v.items) }
    ensures within { IfOk result (λ v. vec_len v ≤ limit) }
    ensures end { OnOk result (IsAtEnd (F.rest files.new)) }
    ensures too_long { IsErrOf result ReadEnd.TooLong → StandsLonger (F.told files.old) name.now limit (F.rest files.new) }
    ensures kept { F.told files.new ≡ F.told files.old }
    ensures cause { CausesRead (F.faults files.old) (F.faults files.new) result }
    ensures later { F.faults files.old ≤ F.faults files.new }
{
    files.open(name)?;
    let bytes = read_up_to(alloc, files, limit as usize + 1)?;
    if bytes.len() as u64 > limit {
        return Err(ReadEnd::TooLong);
    }
    Ok(bytes)
}

/// Sends all bytes, in as many pieces as the sink wants. `Partial` comes only where a write failed, and always then,
/// and says how many bytes were appended before: the first ones. It takes no memory.
pub fn write_all<S: Sink>(sink: &mut S, bytes: &[u8]) -> Result<(), Partial>
    ensures ok { OnOk result (Appends (S.written sink.old) (S.written sink.new) bytes.now) }
    ensures partial { IfErr result (λ p. (p.sent < length bytes.now) × Appends (S.written sink.old) (S.written sink.new) (take p.sent bytes.now)) }
    ensures tells { is_some (S.written sink.new) ≡ is_some (S.written sink.old) }
    ensures cause { HasCause (S.faults sink.old) (S.faults sink.new) result }
{
    let mut sent = 0;
    while sent < bytes.len() {
        match sink.write(&bytes[sent..]) {
            Ok(count) => sent += count,
            Err(Failed) => return Err(Partial { sent: sent as u64 }),
        }
    }
    Ok(())
}
