//! What a host sends at once.
ghost use Rattle.std.specs.Prelude.{◌≡◌, ◌<◌, ℕ, length, false, true, IfSome, IfNone, MatchResult};
ghost use Rattle.std.specs.List.{AllByRecursion};
ghost use Rattle.sketchlet_wire.specs.Spelling.{IsColumn};
ghost use Rattle.sketchlet_wire.specs.Uploads.{holds_key, is_twice, same_column_key, IsUpload, IsFull, upload_of};

use crate::column::Column;
use lg_model::Key;
use lg_model::limits::MOST_UPLOAD_COLUMNS;
use std::marker::Model;

// Whether both keys are one. The index comes first, since the columns of a host differ in it most often.
fn is_same_key(a: &Key, b: &Key) -> bool
    ensures { result ≡ same_column_key a.now b.now }
{
    a.index == b.index && a.epoch == b.epoch && a.switch == b.switch
}

/// Whether a column of the list has that key. Takes no memory.
pub fn holds(columns: &[Column], key: &Key) -> bool
    ensures { result ≡ holds_key key.now columns.now }
{
    for column in columns {
        if is_same_key(&column.key(), key) {
            return true;
        }
    }
    false
}

// The position of the first column with the key of an earlier one.
fn first_twice(columns: &[Column]) -> Option<usize>
    ensures some { IfSome result (λ n. (n < length columns.now) × (is_twice columns.now n ≡ true)) }
    ensures none { IfNone result ((n : ℕ) → n < length columns.now → is_twice columns.now n ≡ false) }
{
    for n in 0..columns.len() {
        if holds(&columns[..n], &columns[n].key()) {
            return Some(n);
        }
    }
    None
}

// Each column has a spelling. Nothing is done here; the clause is what counts.
fn columns_fit(columns: &[Column])
    ensures { AllByRecursion IsColumn columns.now }
{
    for column in columns {
        column.key();
    }
}

/// An upload: 1 to 16 columns of a host, no two of one key.
#[derive(Debug, Drop)]
pub struct Upload {
    host: u16,
    // The number of the upload at its host, from 0.
    seq: u32,
    columns: Vec<Column>,
}

impl Model for Upload {
    ghost use Rattle.sketchlet_wire.specs.Uploads.{UploadData, IsFull, upload_of};

    ghost Value = { UploadData };

    ghost view = { λ u. upload_of u.host u.seq u.columns.items };

    ghost invariant = { λ u. IsFull (upload_of u.host u.seq u.columns.items) };
}

impl Upload {
    /// An upload of these columns in their order, with the host's name and the number of the upload at this host. They are 1
    /// to 16, no two of one key: who has not looked at them calls [`Upload::new`]. Takes no memory.
    pub fn of(host: u16, seq: u32, columns: Vec<Column>) -> Upload
        requires { IsUpload columns.items }
        ensures { result ≡ upload_of host seq columns.items }
    {
        columns_fit(&columns);
        Upload { host, seq, columns }
    }

    /// An upload of these columns in their order, with the host's name and the number of the upload at this host. The columns
    /// come back, as they were, exactly where they are none, more than 16, or two have one key. Takes no memory.
    pub fn new(host: u16, seq: u32, columns: Vec<Column>) -> Result<Upload, Vec<Column>>
        ensures { MatchResult result
            (λ u. IsUpload columns.items × (u ≡ upload_of host seq columns.items))
            (λ back. (IsUpload columns.items → ⊥) × (back ≡ columns)) }
    {
        if columns.len() < 1
            || columns.len() > MOST_UPLOAD_COLUMNS
            || first_twice(&columns).is_some()
        {
            return Err(columns);
        }
        Ok(Upload::of(host, seq, columns))
    }

    /// The host's name.
    pub fn host(&self) -> u16
        ensures { result ≡ self.now.host }
    {
        self.host
    }

    /// The number of the upload at its host.
    pub fn seq(&self) -> u32
        ensures { result ≡ self.now.seq }
    {
        self.seq
    }

    /// The columns, in order.
    pub fn columns(&self) -> &[Column]
        ensures value { result.now ≡ self.now.columns }
        ensures admitted { IsUpload self.now.columns }
        ensures full { IsFull self.now }
    {
        &self.columns
    }
}
