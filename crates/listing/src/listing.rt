ghost use Rattle.std.specs.Prelude.{◌≡◌, IfOk, string_bytes};
ghost use Rattle.domain.specs.Held.{domain_tables};
ghost use Rattle.listing.specs.Listing.{listing, numbered};
ghost use Rattle.listing.specs.Texts.{Pushes, listed};

use crate::rows::{Entry, Lister};
use domain::Domain;
use std::alloc::{AllocError, Global};

// The listing of a domain: one row for each entry. It is public and takes what callers have; the Lister is made here.
pub fn list_domain(heap: Global, domain: &Domain) -> Result<String, AllocError>
    ensures { IfOk result (λ s. string_bytes s ≡ listing (domain_tables domain.now)) }
{
    let lister = Lister { heap, domain };
    let mut out = String::new(heap);
    lister.push_entries(&mut out, domain.facts())?;
    lister.push_entries(&mut out, domain.actions())?;
    lister.push_entries(&mut out, domain.tasks())?;
    lister.push_entries(&mut out, domain.methods())?;
    Ok(out)
}

impl Lister<'_> {
    // Writes the rows of a table's entries, which are numbered from 0, after those that stand there.
    fn push_entries<T: Entry>(self, out: &mut String, entries: &[T]) -> Result<(), AllocError>
        ensures { Pushes result out.old out.new
            (numbered (T.text (listed self.entry)) 0 entries.now) }
    {
        for (number, entry) in entries.iter().enumerate() {
            out.push_str(entry.rows(self, number)?.as_str())?;
        }
        Ok(())
    }
}
