//! What loads, stores and atomic memory operations do with the word in memory.

ghost use Rattle.std.specs.Prelude.{◌≡◌, ◌<◌, ◌≤◌, ◌*◌, ◌^◌};
ghost use Rattle.rv32_decode.specs.Fields.{sign_extended};
ghost use Rattle.hart_core.specs.Values.{word_from};
ghost use Rattle.hart_core.specs.Memory.{combined, extended, load_size as load_size_of, store_size as store_size_of, IsAccessSize};

use rv32_decode::{AmoKind, LoadKind, StoreKind};

/// The word that an atomic memory operation puts in place of the old one.
#[tactic(auto, unfolding(crate::specs::Memory::combined))]
pub fn amo(kind: AmoKind, old: u32, operand: u32) -> u32
    ensures { result ≡ combined kind old operand }
{
    match kind {
        AmoKind::Swap => operand,
        AmoKind::Add => old.wrapping_add(operand),
        AmoKind::Xor => old ^ operand,
        AmoKind::And => old & operand,
        AmoKind::Or => old | operand,
        AmoKind::Min if old.cast_signed() < operand.cast_signed() => old,
        AmoKind::Max if operand.cast_signed() < old.cast_signed() => old,
        AmoKind::Min | AmoKind::Max => operand,
        AmoKind::Minu => old.min(operand),
        AmoKind::Maxu => old.max(operand),
    }
}

/// The register's word of a load that read `raw`: its low 1, 2 or 4 bytes, extended by the sign or by zeros.
/// The bytes of `raw` above them are ignored.
#[tactic(auto, unfolding(crate::specs::Memory::extended))]
pub fn extend(kind: LoadKind, raw: u32) -> u32
    ensures { result ≡ extended kind raw }
{
    match kind {
        LoadKind::Lb => by_sign(raw % 256, 128),
        LoadKind::Lh => by_sign(raw % 65536, 32768),
        LoadKind::Lw => raw,
        LoadKind::Lbu => raw % 256,
        LoadKind::Lhu => raw % 65536,
    }
}

/// How many bytes a load reads.
#[tactic(auto, unfolding(crate::specs::Memory::load_size))]
pub fn load_size(kind: LoadKind) -> u8
    ensures size { result ≡ load_size_of kind }
    ensures access { IsAccessSize result }
{
    match kind {
        LoadKind::Lb | LoadKind::Lbu => 1,
        LoadKind::Lh | LoadKind::Lhu => 2,
        LoadKind::Lw => 4,
    }
}

/// How many bytes a store writes.
pub(crate) fn store_size(kind: StoreKind) -> u8
    ensures size { result ≡ store_size_of kind }
    ensures access { IsAccessSize result }
{
    match kind {
        StoreKind::Sb => 1,
        StoreKind::Sh => 2,
        StoreKind::Sw => 4,
    }
}

/// A number below twice `sign`, extended to a word by its sign bit, which is worth `sign`.
fn by_sign(value: u32, sign: u32) -> u32
    requires sign { sign ≤ 2 ^ 15 }
    requires below { value < 2 * sign }
    ensures { result ≡ word_from (sign_extended sign value) }
{
    if value < sign {
        value
    } else {
        u32::MAX - (2 * sign - 1 - value)
    }
}
