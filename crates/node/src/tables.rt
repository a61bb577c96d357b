// A table of a node: what each slot holds, by its owner and its choices.
ghost use Rattle.std.specs.Prelude.{ℕ, ◌/◌, ◌≤◌, ◌<◌, length, slice_index, slice_index_or};
ghost use Rattle.catalogue.specs.Spans.{owner_in};

// What `value` says of each slot, and 255 past the slots. A slot below the count is whole, so its owner is read without a test of the table's end.
pub fn tabled<F: Fn(u32, u64) -> u8>(slots: &[u16], choices: &[u64; 256], value: F) -> [u8; 256]
    requires few { length slots.now / 4 ≤ 256 }
    requires callable { F.IsAlwaysCallable value }
    ensures { (s : ℕ) → s < length slots.now / 4 → F.post value (owner_in slots.now s) (slice_index choices.now s) (slice_index_or result s 255) }
{
    let mut table = [255u8; 256];
    for s in 0..slots.len() / 4 {
        table[s] = value(slots[s * 4] as u32, choices[s]);
    }
    table
}
