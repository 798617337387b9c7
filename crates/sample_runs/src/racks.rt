//! Racks that rows of several crates run on.

/// One thread.
pub const ONE: &str =
    "format = 1\nslots = 4\nprotect = 8\noutliers = 2\nregion = 0\nmost = 9\nthreshold = 0\n[[blade]]\nframes = 2\n[[blade]]\nframes = 2\n[[memory]]\nspare = 4\nhomes = [{ domain = 0, page = 0, pages = 16 }]\n[[memory]]\nspare = 4\nhomes = [{ domain = 0, page = 16, pages = 16 }]\n[[image]]\nname = \"p0.bin\"\nat = 0\n[[thread]]\nblade = 0\ndomain = 0\nimage = 0\nqueue = 2\n[[map]]\ndomain = 0\npage = 1\npages = 2\nperm = \"rw\"\n";

/// Two threads, each on a blade of its own.
pub const TWO: &str =
    "format = 1\nslots = 4\nprotect = 8\noutliers = 2\nregion = 0\nmost = 9\nthreshold = 0\n[[blade]]\nframes = 2\n[[blade]]\nframes = 2\n[[memory]]\nspare = 4\nhomes = [{ domain = 0, page = 0, pages = 16 }]\n[[memory]]\nspare = 4\nhomes = [{ domain = 0, page = 16, pages = 16 }]\n[[image]]\nname = \"p0.bin\"\nat = 0\n[[image]]\nname = \"p1.bin\"\nat = 0\n[[thread]]\nblade = 0\ndomain = 0\nimage = 0\nqueue = 2\n[[thread]]\nblade = 1\ndomain = 0\nimage = 1\nqueue = 2\n[[map]]\ndomain = 0\npage = 1\npages = 2\nperm = \"rw\"\n";

/// The same with one entry in the directory.
pub const ONE_SLOT: &str =
    "format = 1\nslots = 1\nprotect = 8\noutliers = 2\nregion = 0\nmost = 9\nthreshold = 0\n[[blade]]\nframes = 2\n[[blade]]\nframes = 2\n[[memory]]\nspare = 4\nhomes = [{ domain = 0, page = 0, pages = 16 }]\n[[memory]]\nspare = 4\nhomes = [{ domain = 0, page = 16, pages = 16 }]\n[[image]]\nname = \"p0.bin\"\nat = 0\n[[image]]\nname = \"p1.bin\"\nat = 0\n[[thread]]\nblade = 0\ndomain = 0\nimage = 0\nqueue = 2\n[[thread]]\nblade = 1\ndomain = 0\nimage = 1\nqueue = 2\n[[map]]\ndomain = 0\npage = 1\npages = 2\nperm = \"rw\"\n";
