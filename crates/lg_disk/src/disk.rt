//! What holds a file.
ghost use Rattle.std.specs.Prelude.{◌≡◌, ◌+◌, ◌-◌, ◌≤◌, ◌^◌, min, List, ℕ, length, take, drop, IfOk, OnOk};
ghost use Rattle.lg_base.specs.Causes.{HasCause};
ghost use Rattle.lg_disk.specs.Disk.{Course, Holds, Only, Same, Shorter, Torn};

use lg_base::Failed;

/// A file, what a crash may leave of it, and a count of faults.
///
/// Where the disk is honest, its calls do what they say, and a crash leaves what the disk model of docs/DEFINITIONS.md
/// ("Disk") tells. A call answers `Failed` only where the count of faults rose in it, or stands at 2^64 - 1 after it.
/// After `Failed` a crash may leave what it may leave during the call, and `len`, `read_at` and `sync` have not changed
/// what a read gives; more is not told.
pub trait Disk {
    /// Whether the disk is known to keep the laws below.
    ghost honest: { Self → Type 0 };

    /// The bytes that a read gives.
    ghost seen: { Self → List ℕ };

    /// The files that a crash now may leave.
    ghost images: { Self → List ℕ → Type 0 };

    /// The moment, a number that never falls.
    ghost moment: { Self → ℕ };

    /// The files that a crash at a moment from that one on might have left.
    ghost since: { Self → ℕ → List ℕ → Type 0 };

    /// How often the disk has failed, up to 2^64 - 1.
    ghost faults: { Self → ℕ };

    /// The length of the file, in bytes.
    fn len(&mut self) -> Result<u64, Failed>
        ensures length { honest self.old → IfOk result (λ n. n ≡ length (seen self.old)) }
        ensures seen { honest self.old → seen self.new ≡ seen self.old }
        ensures course { Course honest images moment since Same self.old self.new }
        ensures cause { HasCause (faults self.old) (faults self.new) result };

    /// Copies the bytes from that place on into the front of the buffer, and answers how many they are: as many as the
    /// buffer has or the file has from there on, whichever is less. There are none past the end.
    fn read_at(&mut self, at: u64, buf: &mut [u8]) -> Result<usize, Failed>
        ensures fits { IfOk result (λ n. n ≤ length buf.old) }
        ensures read { honest self.old → IfOk result (λ n. n ≡ min (length buf.old) (length (seen self.old) - at)) }
        ensures bytes { honest self.old → IfOk result (λ n. take n buf.new ≡ take n (drop at (seen self.old))) }
        ensures seen { honest self.old → seen self.new ≡ seen self.old }
        ensures course { Course honest images moment since Same self.old self.new }
        ensures cause { HasCause (faults self.old) (faults self.new) result };

    /// Puts the bytes there, from a place up to the end; the file grows where they reach past it. They end at 2^40 at
    /// most. Of a write that starts past the end it is only told what a crash may leave.
    fn write_at(&mut self, at: u64, bytes: &[u8]) -> Result<(), Failed>
        requires { at + length bytes.now ≤ 2 ^ 40 }
        ensures written { honest self.old → at ≤ length (seen self.old) →
            OnOk result (Holds (seen self.old) at bytes.now (seen self.new)) }
        ensures course { Course honest images moment since (Torn at (length bytes.now)) self.old self.new }
        ensures cause { HasCause (faults self.old) (faults self.new) result };

    /// Makes the length the smaller of itself and that one.
    fn cut(&mut self, len: u64) -> Result<(), Failed>
        ensures cut { honest self.old → OnOk result (seen self.new ≡ take len (seen self.old)) }
        ensures course { Course honest images moment since (Shorter len) self.old self.new }
        ensures cause { HasCause (faults self.old) (faults self.new) result };

    /// Makes all that was written, and the length, durable.
    fn sync(&mut self) -> Result<(), Failed>
        ensures durable { honest self.old → OnOk result (Only (seen self.old) (images self.new)) }
        ensures seen { honest self.old → seen self.new ≡ seen self.old }
        ensures course { Course honest images moment since Same self.old self.new }
        ensures cause { HasCause (faults self.old) (faults self.new) result };

    /// How often the disk has failed. The count never falls, and stands still at 2^64 - 1.
    fn fault_count(&self) -> u64
        ensures { result ≡ faults self.now };

    /// A disk as it reads is one of its own images.
    ghost reads_image: { (d : Self) → honest d → images d (seen d) };

    /// An image of now is one since every moment up to now.
    ghost counts_now: { (d : Self) (t : ℕ) (c : List ℕ) → honest d → t ≤ moment d → images d c → since d t c };

    /// An image since now is one of now.
    ghost only_now: { (d : Self) (c : List ℕ) → honest d → since d (moment d) c → images d c };
}
