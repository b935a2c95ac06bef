ghost use Rattle.std.specs.Prelude.{◌≡◌, List, Some, false};
ghost use Rattle.std.specs.List.{AllByRecursion};
ghost use Rattle.scan.specs.Scans.{start, new_scan};
ghost use Rattle.scan.specs.Pages.{Page, ArePages, Rise, is_left, after_pages};

/// The laws of scans, for all lists of pages that are asked for one after another.
pub fn laws_of_scans()
    // What the pages list rises in the order of a scan, each name once.
    ensures rise { (pages : List Page) → ArePages pages (Some start) → Rise (after_pages new_scan pages).listed }

    // No row that was listed is left for later pages.
    ensures behind { (pages : List Page) → ArePages pages (Some start)
        → AllByRecursion (λ row. is_left (after_pages new_scan pages).next row ≡ false)
        (after_pages new_scan pages).listed }
{}
