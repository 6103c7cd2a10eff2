// Lists of addresses: two bytes an entry.
ghost use Rattle.std.specs.Prelude.{◌≡◌, ◌+◌, ◌*◌, ◌≤◌, length};
ghost use Rattle.std.specs.List.{flat_map};
ghost use Rattle.leaf_fields.specs.Fields.{from_le, part};
ghost use Rattle.messages.specs.Answers.{entries};
ghost use Rattle.proposer_rules.specs.State.{listed};
ghost use Rattle.proposer_place.specs.Rows.{numbers};

// The n entries at `at`, each as its bytes.
pub fn list(s: &[u8], at: usize, n: usize) -> &[[u8; 2]]
    requires { at + 2 * n ≤ length s.now }
    ensures { (numbers result.now ≡ entries s.now at n) × (length result.now ≡ n) × (flat_map (λ e. e) result.now ≡ part s.now at (2 * n)) }
{
    s[at..at + 2 * n].as_chunks().0
}

// The address that an entry is.
pub fn address(entry: &[u8; 2]) -> u16
    ensures { result ≡ from_le (part entry.now 0 2) }
{
    leaf_fields::read(entry, 0)
}

// Whether an address is one of the entries.
pub fn listed(list: &[[u8; 2]], a: u16) -> bool
    ensures { result ≡ listed a (numbers list.now) }
{
    list.iter().any(|entry| address(entry) == a)
}
