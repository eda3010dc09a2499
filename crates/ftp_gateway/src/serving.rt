//! A gateway that serves.

ghost use Rattle.std.specs.Prelude.{◌≡◌};
ghost use Rattle.std.specs.Arc.{arc_value};
ghost use Rattle.ftp_options.specs.Features.{has_restart};

use crate::activity::Activity;
use crate::budgets::Budgets;
use crate::control_socket::{ControlSocket, Waiting};
use crate::current_users::{CurrentUsers, UserSource};
use crate::duties::Duties;
use crate::homes::clear_homes;
use crate::password_check::PasswordCheck;
use crate::records::{RecordFiles, Records};
use crate::refusal::Refusal;
use crate::setup::{Setup, read_setup};
use crate::user_table::UserTable;
use crate::words::HomeWords;
use ftp_base::Bytes;
use ftp_config::{GatewayConfig, Users};
use ftp_disk::{Below, DiskStorage, Homes};
use ftp_extras::Offers;
use ftp_options::Options;
use ftp_shared::JournalFeed;
use ftp_system::{Depot, ServerRuntime};
use std::alloc::{AllocError, Global};
use std::fs::File;
use std::rt::Files;
use std::sync::{Arc, Mutex, Wait};
use std::thread;
use std::time::Clock;

/// How many entries may wait to be written: some hundred MB of them.
const MOST_WAITING: u64 = 200_000;

/// How many entries of the journal are kept behind its checkpoint at most.
pub const CHECKPOINT_EVERY: u64 = 1_000;

/// What a gateway uses of the runtime.
pub trait GatewayRuntime: ServerRuntime + Files<File = File> + AllocGlobal {}

impl<R: ServerRuntime + Files<File = File> + AllocGlobal> GatewayRuntime for R {}

/// Gives each transfer a storage of its own over the homes of the users that count, and each session words of its own over them.
#[derive(Drop)]
pub struct HomeDepot<R: Wait + Drop> {
    rt: R,
    alloc: Global,
    users: CurrentUsers<R>,
    offers: Offers,
    whole_uploads: bool,
}

impl<R: Wait + Files<File = File> + Clock + Copy + Drop> HomeDepot<R> {
    // A storage over these homes, where uploads come whole if they are to.
    fn over(&self, homes: Arc<Homes, Global>) -> DiskStorage<R, Below<R>>
        ensures homes { result.homes ≡ arc_value homes }
        ensures whole { result.is_whole ≡ self.now.whole_uploads }
        ensures faults { result.faults ≡ 0 }
    {
        let storage = DiskStorage::new(self.rt, self.alloc, Below::new(self.rt), homes);
        storage.whole_uploads(self.whole_uploads)
    }
}

impl<R: Wait + Files<File = File> + Clock + Copy + Drop> Depot for HomeDepot<R> {
    type Store = DiskStorage<R, Below<R>>;

    type Words = HomeWords<R>;

    fn store(&self) -> Result<DiskStorage<R, Below<R>>, AllocError> {
        let table = self.users.users()?;
        let homes = Arc::try_clone(&table.homes)?;
        Ok(self.over(homes))
    }

    fn words(&self) -> Result<HomeWords<R>, AllocError> {
        HomeWords::new(self.rt, self.alloc, self.users.share()?, self.offers)
    }
}

/// How many sessions there may be at a time, of all clients and of one address.
#[derive(Clone, Copy, Debug, PartialEq, Eq)]
pub struct Limits {
    pub all: u64,
    pub of_one: u64,
}

/// Where a gateway serves, and how.
#[derive(Drop)]
pub struct Plan {
    pub options: Options,
    pub address: Bytes,
    pub limits: Limits,
}

/// What a gateway is made of: how it serves, who may log in, whose homes are served, who asks it for something, who counts what it
/// does, and where its journal's entries are written.
#[derive(Drop)]
pub struct Gateway<R: Wait + Copy + Drop> {
    pub plan: Plan,
    pub check: PasswordCheck<R, CurrentUsers<R>>,
    pub depot: HomeDepot<R>,
    pub control: ControlSocket<R>,
    pub transfers: Activity,
    pub logins: Activity,
    pub records: Records<R>,
    pub feed: Arc<JournalFeed, Global>,
    /// They are told by its end, behind which nothing is written any more.
    pub waiting: Waiting,
}

// Something for several to hold.
fn shared<T: Drop>(alloc: Global, value: T) -> Result<Arc<T, Global>, Refusal> {
    match Arc::new(alloc, value) {
        Ok(shared) => Ok(shared),
        Err(_) => Err(Refusal::OutOfMemory),
    }
}

// The control socket of a configuration, which reads its users' file anew.
fn control_of<R: GatewayRuntime>(
    rt: &R,
    config: &GatewayConfig,
    users: CurrentUsers<R>,
    activity: Activity,
    records: Arc<RecordFiles<R>, Global>,
    waiting: Waiting,
) -> Result<ControlSocket<R>, Refusal> {
    let alloc = rt.alloc();
    let duties = Duties {
        rt: *rt,
        alloc,
        users_file: config.users_file.copy(alloc)?,
        users,
        activity,
        records,
    };
    let path = match &config.control_socket {
        Some(path) => match std::str::from_utf8(path.as_slice()) {
            Ok(path) => Some(path),
            Err(_) => return Err(Refusal::ControlSocket),
        },
        None => None,
    };
    let grace_ms = u64::from(config.shutdown_grace) * 1000;
    match ControlSocket::bind(rt, path, grace_ms, duties, waiting) {
        Ok(socket) => Ok(socket),
        Err(_) => Err(Refusal::ControlSocket),
    }
}

// Where and how a configuration has a gateway serve.
fn make_plan(alloc: Global, config: &GatewayConfig, options: Options) -> Result<Plan, AllocError> {
    Ok(Plan {
        options,
        address: config.listen.copy(alloc)?,
        limits: Limits {
            all: u64::from(config.max_clients),
            of_one: u64::from(config.max_per_ip),
        },
    })
}

// What the words of a gateway offer.
fn offers(config: &GatewayConfig, options: &Options) -> Offers
    ensures tls { result.is_behind_tls ≡ config.now.tls_at_proxy }
    ensures restart { result.can_restart ≡ has_restart options.now.features }
{
    Offers {
        is_behind_tls: config.tls_at_proxy,
        can_restart: options.has_restart(),
    }
}

// The users that were read first. Where uploads come whole, what earlier ones left in their homes is removed before their budgets are
// counted.
fn first_users<R: GatewayRuntime>(
    rt: &R,
    whole_uploads: bool,
    users: Users,
) -> Result<CurrentUsers<R>, AllocError> {
    let alloc = rt.alloc();
    let system = Below::new(*rt);
    if whole_uploads {
        clear_homes(&system, alloc, &users)?;
    }
    let table = UserTable::new(rt, &system, alloc, users, &Budgets::none(alloc))?;
    CurrentUsers::new(*rt, alloc, table)
}

// The check of passwords, by half of the processors at most, so that logins leave the others to transfers.
fn check_by<R: GatewayRuntime>(
    rt: &R,
    users: &CurrentUsers<R>,
) -> Result<PasswordCheck<R, CurrentUsers<R>>, AllocError> {
    let most = thread::available_parallelism(rt).map_or(1, |processors| processors.get() / 2);
    PasswordCheck::new(*rt, rt.alloc(), users.share()?, most)
}

// The storages of transfers, over the homes of the users that count.
fn depot_of<R: GatewayRuntime>(
    rt: &R,
    config: &GatewayConfig,
    options: &Options,
    users: &CurrentUsers<R>,
) -> Result<HomeDepot<R>, AllocError> {
    Ok(HomeDepot {
        rt: *rt,
        alloc: rt.alloc(),
        users: users.share()?,
        offers: offers(config, options),
        whole_uploads: config.whole_uploads,
    })
}

// What counts transfers and logins, and what tells the counts at the control socket.
#[derive(Drop)]
struct Counting<R: Wait + Copy + Drop> {
    control: ControlSocket<R>,
    transfers: Activity,
    logins: Activity,
    waiting: Waiting,
}

fn make_counting<R: GatewayRuntime>(
    rt: &R,
    config: &GatewayConfig,
    users: &CurrentUsers<R>,
    records: &Records<R>,
) -> Result<Counting<R>, Refusal> {
    let alloc = rt.alloc();
    let activity = Activity::new(alloc)?;
    let transfers = activity.share()?;
    let logins = activity.share()?;
    let waiting = shared(alloc, Mutex::new(Vec::new(alloc)))?;
    let theirs = Arc::try_clone(&waiting)?;
    Ok(Counting {
        control: control_of(
            rt,
            config,
            users.share()?,
            activity,
            records.files()?,
            theirs,
        )?,
        transfers,
        logins,
        waiting,
    })
}

// What a gateway asks whether a password is right, and where it keeps files, over users.
fn services_over<R: GatewayRuntime>(
    rt: &R,
    config: &GatewayConfig,
    options: &Options,
    users: &CurrentUsers<R>,
) -> Result<(PasswordCheck<R, CurrentUsers<R>>, HomeDepot<R>), AllocError> {
    let depot = depot_of(rt, config, options, users)?;
    Ok((check_by(rt, users)?, depot))
}

// A gateway over users. Its control socket, which others see, is made last.
fn gateway_over<R: GatewayRuntime>(
    rt: &R,
    config: &GatewayConfig,
    options: Options,
    records: Records<R>,
    users: &CurrentUsers<R>,
) -> Result<Gateway<R>, Refusal> {
    let alloc = rt.alloc();
    let feed = shared(alloc, JournalFeed::new(alloc, MOST_WAITING))?;
    let plan = make_plan(alloc, config, options)?;
    let (check, depot) = services_over(rt, config, &plan.options, users)?;
    let counting = make_counting(rt, config, users, &records)?;
    Ok(Gateway {
        plan,
        check,
        depot,
        control: counting.control,
        transfers: counting.transfers,
        logins: counting.logins,
        records,
        feed,
        waiting: counting.waiting,
    })
}

// The gateway of a configuration, with the users that its file lists.
fn gateway_of<R: GatewayRuntime>(
    rt: &R,
    config: &GatewayConfig,
    options: Options,
    users: Users,
) -> Result<Gateway<R>, Refusal> {
    let records = Records::open(*rt, config, &options)?;
    let users = first_users(rt, config.whole_uploads, users)?;
    gateway_over(rt, config, options, records, &users)
}

/// The gateway that the configuration file at a path describes.
pub fn prepare<R: GatewayRuntime>(rt: &R, path: &str) -> Result<Gateway<R>, Refusal> {
    let Setup {
        config,
        options,
        users,
    } = read_setup(rt, path)?;
    gateway_of(rt, &config, options, users)
}
