//! Where a flow stands in the rows of a shape (docs/DEFINITIONS.md, Places).
ghost use Rattle.std.specs.Prelude.{◌≡◌, ◌<◌, ◌+◌, ◌*◌, ◌/◌, ◌%◌, ◌^◌, All, length, fold};
ghost use Rattle.flow_key.specs.KeyText.{key_bytes};
ghost use Rattle.lg_model.specs.Placing.{mixed, place, places_of};

use crate::row_places::Places;
use flow_key::FlowKey;
use lg_model::{Hash, Shape};

/// By how much the beginnings of two neighbouring rows differ.
const STRIDE: u64 = 0x9E37_79B9_7F4A_7C15;

/// The factor of each byte of the key.
const PRIME: u64 = 0x100_0000_01B3;

// The place by the ports.
fn port_place(width: u16, key: &FlowKey, i: u8) -> u16
    requires { 0 < width }
    ensures { result ≡ (key.now.sport + i * key.now.dport) % width }
{
    let sum = u32::from(key.sport) + u32::from(i) * u32::from(key.dport);
    (sum % u32::from(width)) as u16
}

// The hash of the key's bytes that begins with h.
fn mix(h: u64, bytes: &[u8; 13]) -> u64
    ensures { result ≡ fold mixed h bytes.now }
{
    let mut h = h;
    for b in bytes {
        h = h.wrapping_add(u64::from(*b)).wrapping_mul(PRIME);
    }
    h
}

// The place by a seed.
fn seed_place(width: u16, seed: u64, bytes: &[u8; 13], i: u8) -> u16
    requires { 0 < width }
    ensures { result ≡ fold mixed ((seed + (i + 1) * 0x9E3779B97F4A7C15) % 2 ^ 64) bytes.now / 2 ^ 32 % width }
{
    let start = seed.wrapping_add((u64::from(i) + 1).wrapping_mul(STRIDE));
    ((mix(start, bytes) >> 32) % u64::from(width)) as u16
}

// The place of a flow in row i.
fn place_in(shape: &Shape, key: &FlowKey, i: u8) -> u16
    ensures { result ≡ place shape.now key.now i }
{
    let width = shape.width();
    match shape.hash() {
        Hash::Ports => port_place(width, key, i),
        Hash::Seed(seed) => seed_place(width, seed, &key.to_bytes(), i),
    }
}

/// The places of a flow in the rows of a shape, one a row and each below the width.
pub fn places(shape: &Shape, key: &FlowKey) -> Places
    ensures value { result ≡ places_of shape.now key.now }
    ensures rows { length result ≡ shape.now.rows }
    ensures width { All (λ j. j < shape.now.width) result }
{
    let mut at = [0u16; 8];
    let rows = shape.rows();
    for i in 0..rows {
        at[i as usize] = place_in(shape, key, i);
    }
    Places::first(rows, at)
}
