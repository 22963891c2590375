//! Text that grows at its end.
ghost use Rattle.std.specs.Prelude.{◌≡◌, ◌+◌, ◌≤◌, ◌++◌, ℕ, List, [], ◌∷◌, length};

/// Text to whose end bytes are added, for which there is room.
pub trait Text {
    /// Its bytes.
    ghost bytes: { Self → List ℕ };

    /// For how many bytes more there is room.
    ghost left: { Self → ℕ };

    fn push(&mut self, byte: u8)
        requires room { 1 ≤ left self.old }
        ensures text { bytes self.new ≡ bytes self.old ++ byte ∷ [] }
        ensures left { left self.old ≤ left self.new + 1 };

    fn extend(&mut self, more: &[u8])
        requires room { length more.now ≤ left self.old }
        ensures text { bytes self.new ≡ bytes self.old ++ more.now }
        ensures left { left self.old ≤ left self.new + length more.now };
}
