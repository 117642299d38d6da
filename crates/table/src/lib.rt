// The site table: how many sites there are, how many of them may be faulty, which are, and the thresholds that follow.
#![tactic(auto)]

ghost use Rattle.std.specs.Prelude.{true, ◌≡◌, ◌≤◌, length};
ghost use Rattle.table.specs.Table.{good_table, is_good, table_size, table_with, table_as, read_table, read_marked};
ghost use Rattle.table.specs.Table.{n_ack_of, n_chk_of, majority_of, faulty_of, faulty_count_of};

use refusals::Refusal;

// A site table. Bit i of the mask marks site i as faulty.
#[derive(Clone, Copy)]
pub struct SiteTable {
    pub sites: usize,
    pub faults: usize,
    pub mask: u16,
}

// What is fixed for a whole run or call: the site table, and how many commands the book has.
#[derive(Clone, Copy)]
pub struct Rules {
    pub table: SiteTable,
    pub commands: usize,
}

impl SiteTable {
    // The greatest number of sites.
    pub const MAX_SITES: usize = 11;
    // The greatest number of faults.
    pub const MAX_FAULTS: usize = 2;
    // The bits of a mask.
    pub const MASK_BITS: usize = 16;
    // The bytes of a site table as it is lent to one site: n, f. A run's header begins with them.
    pub const BYTES: usize = 2;
    // The same with the mask of 2 bytes after them.
    pub const MARKED_BYTES: usize = SiteTable::BYTES + 2;

    // The site table that lent bytes begin with, no site marked as faulty; a cut one is refused.
    pub fn read(bytes: &[u8]) -> Result<SiteTable, Refusal>
        ensures { result ≡ read_table bytes.now }
    {
        if bytes.len() < SiteTable::BYTES {
            return Err(Refusal::Table);
        }
        SiteTable::read_with(bytes, 0)
    }

    // The same with its mask: a second function, since a site is lent a table without one.
    pub fn read_marked(bytes: &[u8]) -> Result<SiteTable, Refusal>
        ensures { result ≡ read_marked bytes.now }
    {
        if bytes.len() < SiteTable::MARKED_BYTES {
            return Err(Refusal::Table);
        }
        let mask: u16 = wire::get(bytes, SiteTable::BYTES);
        SiteTable::read_with(bytes, mask)
    }

    // The table of n, f and a mask, or the refusal where it is against the limits.
    fn read_with(bytes: &[u8], mask: u16) -> Result<SiteTable, Refusal>
        requires { table_size ≤ length bytes.now }
        ensures { result ≡ table_as (is_good (table_with bytes.now mask)) (table_with bytes.now mask) }
    {
        let sites = wire::get::<u8>(bytes, 0) as usize;
        let faults = wire::get::<u8>(bytes, 1) as usize;
        if SiteTable::is_within_limits(sites, faults, mask) {
            Ok(SiteTable {
                sites,
                faults,
                mask,
            })
        } else {
            Err(Refusal::Table)
        }
    }

    // Whether these numbers are within the limits of a table.
    fn is_within_limits(sites: usize, faults: usize, mask: u16) -> bool
        ensures { result ≡ good_table sites faults mask }
    {
        if sites < 1 {
            return false;
        }
        if sites > SiteTable::MAX_SITES {
            return false;
        }
        if faults > SiteTable::MAX_FAULTS {
            return false;
        }
        if sites < 5 * faults + 1 {
            return false;
        }
        if mask >> sites != 0 {
            return false;
        }
        let marked = u16::count_ones(mask);
        marked as usize <= faults
    }

    // How many acknowledgments deliver fast.
    pub fn n_ack(self) -> usize
        requires { is_good self ≡ true }
        ensures { result ≡ n_ack_of self }
    {
        self.sites - self.faults
    }

    // How many valid entries decide a round.
    pub fn n_chk(self) -> usize
        requires { is_good self ≡ true }
        ensures { result ≡ n_chk_of self }
    {
        self.sites - self.faults
    }

    // A majority of a round: the rounded-up half of n_chk + 1.
    pub fn majority(self) -> usize
        requires { is_good self ≡ true }
        ensures { result ≡ majority_of self }
    {
        self.n_chk() / 2 + 1
    }

    // Whether a site is faulty.
    pub fn is_faulty(self, site: usize) -> bool
        ensures { result ≡ faulty_of self site }
    {
        if site < SiteTable::MASK_BITS {
            (self.mask >> site) % 2 == 1
        } else {
            false
        }
    }

    // How many sites are faulty.
    pub fn faulty_count(self) -> usize
        requires { is_good self ≡ true }
        ensures { result ≡ faulty_count_of self }
    {
        let marked = u16::count_ones(self.mask);
        marked as usize
    }
}
